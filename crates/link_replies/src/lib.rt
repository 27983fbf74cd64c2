// What a frame does to a TP2.0 connection that opens: the reply to its set-up.
#![tactic(auto)]

ghost use Rattle.std.specs.Prelude.{◌≡◌, List, ℕ, get_or};
ghost use Rattle.std.proofs.Math.Option.{some};
ghost use Rattle.telegram.specs.Telegram.{read_opening};
ghost use Rattle.telegram_types.specs.Face.{opening_said};
ghost use Rattle.link.specs.Connection.{Asked, Trial, waits, opening as opens, connecting as connects, replied, hears};
ghost use Rattle.link_layout.specs.Connection.{connection_part};
ghost use Rattle.link_layout.specs.Turned.{LinkPart};
ghost use Rattle.link_replies.specs.Meaning.{Asks, after_reply};

use link_places::{
    APPLICATION_IN, ASKED_AT, DESTINATION_IN, EXIT_AT, RX_ID_IN, TRIALS_AT, TX_ID_AT,
};
use telegram_types::{Opening, Telegram};

// The state of a connection that connects.
const CONNECTING: u8 = 2;

// A reply comes under this identifier plus the destination.
const REPLIES: u32 = 0x200;

// What a reply means to the set-up: nothing; a channel with this TX-ID; none.
#[derive(Clone, Copy)]
pub enum Means {
    Nothing,
    Positive(u32),
    Negative,
}

// What an opening telegram means to a set-up with this identifier's lower byte, RX-ID and application.
fn meaning(o: Opening, own: u8, rx: u32, application: u8) -> Means
    ensures { (a : Asked) (n : ℕ) (s : Trial) (bytes : List ℕ) → Asks a own rx application → after_reply result a n s ≡ replied a n s (some (opening_said o bytes)) }
{
    match o {
        Opening::SetUp {
            destination: _,
            rx_id: _,
            application: _,
        } => Means::Nothing,
        Opening::Positive {
            destination,
            tx_id,
            rx_id,
            application: of,
        } => {
            if (destination == own) & (tx_id as u32 == rx) & (of == application) {
                return Means::Positive(rx_id as u32);
            }
            Means::Nothing
        }
        Opening::Negative {
            destination,
            kind: _,
        } => {
            if destination == own {
                return Means::Negative;
            }
            Means::Nothing
        }
    }
}

// What a frame under the identifier of replies means to such a set-up.
fn reply_in(id: u32, bytes: &[u8], own: u8, rx: u32, application: u8) -> Means
    ensures { (a : Asked) (n : ℕ) (s : Trial) → Asks a own rx application → after_reply result a n s ≡ replied a n s (read_opening id bytes.now) }
{
    let Ok(answer) = opening_reader::opening(id, bytes) else {
        return Means::Nothing;
    };
    match answer.telegram {
        Telegram::Opening(_, o) => meaning(o, own, rx, application),
        Telegram::Channel(_) => Means::Nothing,
    }
}

// The channel is there: the connection set-up waits.
fn connect(part: &mut [u8], tx: u32)
    requires { LinkPart part.old }
    ensures { (a : Asked) (n : ℕ) (s : Trial) → connection_part.get part.old ≡ opens a n s → part.new ≡ connection_part.put (connects a tx 0 waits) }
{
    part[0] = CONNECTING;
    integers::put_word(&mut part[TX_ID_AT..TRIALS_AT], tx);
    octets::zero(&mut part[TRIALS_AT..EXIT_AT]);
}

// A frame reaches a connection that opens.
pub fn reply(part: &mut [u8], id: u32, bytes: &[u8])
    requires { LinkPart part.old × (get_or part.old 0 0 ≡ 1) }
    ensures { part.new ≡ connection_part.put (hears (connection_part.get part.old) id bytes.now) }
{
    if id != REPLIES + integers::wide(part[ASKED_AT + DESTINATION_IN]) {
        return;
    }
    let own = part[ASKED_AT];
    let rx = integers::word_at(part, ASKED_AT + RX_ID_IN);
    let application = part[ASKED_AT + APPLICATION_IN];
    match reply_in(id, bytes, own, rx, application) {
        Means::Nothing => {}
        Means::Positive(tx) => connect(part, tx),
        Means::Negative => octets::zero(part),
    }
}
