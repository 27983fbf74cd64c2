// What a frame does to a TP2.0 connection that connects: the acknowledge of its connection set-up.
#![tactic(auto)]

ghost use Rattle.std.specs.Prelude.{◌≡◌, List, ℕ, min, length, get_or};
ghost use Rattle.std.proofs.Math.Option.{some};
ghost use Rattle.telegram.specs.Telegram.{read_channel};
ghost use Rattle.telegram_types.specs.Face.{channel_said};
ghost use Rattle.link.specs.Connection.{Asked, Trial, connecting as connects, standing as stands, anew, joined, hears};
ghost use Rattle.link_layout.specs.Sizes.{standing_size};
ghost use Rattle.link_layout.specs.Connection.{link, connection_part};
ghost use Rattle.link_layout.specs.Turned.{LinkPart};
ghost use Rattle.link_joining.specs.Meaning.{after_join};

use link_places::{
    ASKED_AT, BLOCK_SIZE_IN, CARE_IN, EXIT_AT, LEFT_IN, LINK, PACE_IN, RX_ID_IN, STANDING_AT,
    TALK_IN, TRIALS_AT,
};
use telegram_types::{OnChannel, Telegram};

// The state of a connection that stands.
const STANDING: u8 = 3;

// T_CTa in microseconds.
const TEST: u32 = 1000000;

// What a telegram means to a connection set-up: nothing; a connection with this block size and T3; none.
#[derive(Clone, Copy)]
pub enum Turn {
    Nothing,
    Stands { block_size: u8, t3: u8 },
    Over,
}

// What a telegram on the channel means to the connection set-up.
fn joining(t: OnChannel) -> Turn
    ensures { (a : Asked) (tx n : ℕ) (s : Trial) (bytes : List ℕ) → after_join result a tx n s ≡ joined a tx n s (some (channel_said t bytes)) }
{
    match t {
        OnChannel::Data {
            asks: _,
            last: _,
            sn: _,
        } => Turn::Nothing,
        OnChannel::Acknowledge { ready: _, sn: _ } => Turn::Nothing,
        OnChannel::Connection {
            ack,
            block_size,
            t1: _,
            t2: _,
            t3,
            t4: _,
        } => {
            if ack {
                return Turn::Stands { block_size, t3 };
            }
            Turn::Nothing
        }
        OnChannel::Test => Turn::Nothing,
        OnChannel::Break => Turn::Nothing,
        OnChannel::Disconnect => Turn::Over,
    }
}

// What a frame under the RX-ID means to the connection set-up.
fn join_in(bytes: &[u8]) -> Turn
    ensures { (a : Asked) (tx n : ℕ) (s : Trial) → after_join result a tx n s ≡ joined a tx n s (read_channel bytes.now) }
{
    let Ok(answer) = channel_reader::channel(bytes) else {
        return Turn::Nothing;
    };
    match answer.telegram {
        Telegram::Opening(_, _) => Turn::Nothing,
        Telegram::Channel(t) => joining(t),
    }
}

// A standing connection anew: the block size, T3, and T_CTa runs.
fn fresh(s: &mut [u8], block: u8, pace: u8)
    requires { length s.old ≡ standing_size }
    ensures { (a : Asked) (block_size : ℕ) → block ≡ min a.block_size block_size → s.new ≡ link.put (anew a block_size pace) }
{
    octets::zero(s);
    s[0] = block;
    s[PACE_IN] = pace;
    integers::put_word(&mut s[CARE_IN + LEFT_IN..TALK_IN], TEST);
}

// The connection stands, with the smaller block size.
fn stand(part: &mut [u8], size: u8, t3: u8)
    requires { LinkPart part.old }
    ensures { (a : Asked) (tx n : ℕ) (s : Trial) → connection_part.get part.old ≡ connects a tx n s → part.new ≡ connection_part.put (stands a tx (anew a size t3)) }
{
    let own = part[ASKED_AT + BLOCK_SIZE_IN];
    let block = if own < size { own } else { size };
    octets::zero(&mut part[TRIALS_AT..EXIT_AT]);
    part[0] = STANDING;
    fresh(&mut part[STANDING_AT..LINK], block, t3);
}

// A frame reaches a connection that connects.
pub fn join(part: &mut [u8], id: u32, bytes: &[u8])
    requires { LinkPart part.old × (get_or part.old 0 0 ≡ 2) }
    ensures { part.new ≡ connection_part.put (hears (connection_part.get part.old) id bytes.now) }
{
    if id != integers::word_at(part, ASKED_AT + RX_ID_IN) {
        return;
    }
    match join_in(bytes) {
        Turn::Nothing => {}
        Turn::Stands { block_size, t3 } => stand(part, block_size, t3),
        Turn::Over => octets::zero(part),
    }
}
