// Telegrams that a TP2.0 connection gives to be sent, each by value with its identifier; those that carry what an open asked for.
#![tactic(auto)]

ghost use Rattle.std.specs.Prelude.{◌≡◌, true, ◌+◌, ◌≤◌, min};
ghost use Rattle.telegram.specs.Telegram.{set_up, opening_fits, opening_bytes, fits, on_wire};
ghost use Rattle.telegram_types.specs.Face.{channel_said};
ghost use Rattle.link.specs.Connection.{longest, ours, set_up_of, Block, sends, next_data};
ghost use Rattle.link_layout.specs.Connection.{asked, out};
ghost use Rattle.link_telegrams.specs.Given.{given as given_as, nothing_given, AskedPart, Sending};

use link_places::{
    APPLICATION_IN, BLOCK_IN, BLOCK_SIZE_IN, DESTINATION_IN, REST_IN, RX_ID_IN, T1_IN, T3_IN,
};
use places::NUMBER;
use telegram_types::{OnChannel, Opening};

// The most bytes of a frame.
pub const FRAME: usize = 8;

// The bytes that a data telegram carries; where those of a message begin behind what is known of it.
const IN_DATA: u32 = 7;

const FIRST: usize = BLOCK_IN + REST_IN + NUMBER;

// Whether there is a telegram, its identifier, how many bytes it has, and they with zeros behind them.
#[derive(Drop)]
pub struct Given {
    pub there: bool,
    pub id: u32,
    pub len: usize,
    pub bytes: [u8; FRAME],
}

// No telegram.
pub fn nothing() -> Given
    ensures { result ≡ nothing_given }
{
    let bytes = [0u8; FRAME];
    Given {
        there: false,
        id: 0,
        len: 0,
        bytes,
    }
}

// A telegram on a channel, with the bytes that it carries.
pub fn on_channel(id: u32, t: OnChannel, carried: &[u8]) -> Given
    requires { fits (channel_said t carried.now) ≡ true }
    ensures { result ≡ given_as id (on_wire (channel_said t carried.now)) }
{
    let mut bytes = [0u8; FRAME];
    let w = channel_writer::channel(t, carried, &mut bytes);
    Given {
        there: true,
        id,
        len: w.unwrap_or(0),
        bytes,
    }
}

// A channel set-up.
fn set_up(id: u32, destination: u8, rx_id: u16, application: u8) -> Given
    requires { opening_fits id (set_up destination rx_id application) ≡ true }
    ensures { result ≡ given_as id (opening_bytes (set_up destination rx_id application)) }
{
    let o = Opening::SetUp {
        destination,
        rx_id,
        application,
    };
    let mut bytes = [0u8; FRAME];
    let w = opening_writer::opening(id, o, &[], &mut bytes);
    Given {
        there: true,
        id,
        len: w.unwrap_or(0),
        bytes,
    }
}

// The channel set-up of what was asked for.
pub fn opening(s: &[u8]) -> Given
    requires { AskedPart s.now }
    ensures { result ≡ given_as (asked.get s.now).own (opening_bytes (set_up_of (asked.get s.now))) }
{
    let id = integers::word_at(s, 0);
    let rx_id = integers::word_at(s, RX_ID_IN) as u16;
    set_up(id, s[DESTINATION_IN], rx_id, s[APPLICATION_IN])
}

// Where the data telegram from there on ends, of a message of so many bytes.
fn end_of(from: u32, n: u32) -> u32
    requires { (from ≤ n) × (n ≤ longest) }
    ensures { result ≡ min (from + 7) n }
{
    if from + IN_DATA < n {
        return from + IN_DATA;
    }
    n
}

// The next data telegram of a message.
pub fn data(s: &[u8], id: u32, size: u32, sn: u8) -> Given
    requires { Sending size s.now }
    ensures { (b : Block) → out.get s.now ≡ sends b → result ≡ given_as id (on_wire (next_data size sn b)) }
{
    let n = integers::word_at(s, BLOCK_IN + REST_IN);
    let taken = integers::wide(s[BLOCK_IN]);
    let from = IN_DATA * taken;
    let first = FIRST + from as usize;
    let end = FIRST + end_of(from, n) as usize;
    let t = OnChannel::Data {
        asks: taken + 1 == link_measures::block_of(size, n),
        last: taken + 1 == link_measures::telegrams(n),
        sn: ((integers::wide(sn) + taken) % 16) as u8,
    };
    on_channel(id, t, &s[first..end])
}

// Our connection set-up or acknowledge by what was asked for.
pub fn connection(s: &[u8], id: u32, ack: bool) -> Given
    requires { AskedPart s.now }
    ensures { result ≡ given_as id (on_wire (ours ack (asked.get s.now))) }
{
    let t = own_telegrams::connection(ack, s[BLOCK_SIZE_IN], s[T1_IN], s[T3_IN]);
    on_channel(id, t, &s[0..0])
}
