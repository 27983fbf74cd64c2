// What was in flight on an ISO 15765 channel was sent: what its messages tell.
#![tactic(auto)]

ghost use Rattle.std.specs.Prelude.{◌≡◌, List, [], ℕ, ◌≤◌, length, get_or};
ghost use Rattle.codes.specs.Code.{code_of};
ghost use Rattle.machine.specs.Channel.{sent as sent_of};
ghost use Rattle.layout.specs.Promise.{gives};
ghost use Rattle.iso.specs.Limits.{most_payload};
ghost use Rattle.iso.specs.Iso.{ready};
ghost use Rattle.iso_layout.specs.Sizes.{iso_flight_at};
ghost use Rattle.iso_layout.specs.Region.{iso_region};
ghost use Rattle.iso_layout.specs.Promise.{IsoOpened, iso_outcome};
ghost use Rattle.talk_message.specs.Sent.{messages};
ghost use Rattle.iso_landing.specs.Landing.{channel_in, arrives, Holds, ended_by, landed_by};

use codes::Refusal;
use iso_places::{FLIGHT, HEARD, LAST, MOST_PAYLOAD, TALK_SIZE, TALKS_AT};
use talk_message::Sent;

// Where in a region stands what the flight belongs to.
const OWNER: usize = FLIGHT + 1;

// A message that was sent, if there is one, tells: TxDone, and with loopback on it comes back.
fn done(r: &mut [u8], clock: u32, m: Sent, buffer: &[u8])
    requires { IsoOpened r.old × (length buffer.now ≡ most_payload) × (m.size ≤ most_payload) × Holds clock (channel_in r.old) (messages m buffer.now) }
    ensures { r.new ≡ iso_region.put (ready (arrives clock (channel_in r.old) (messages m buffer.now))) }
{
    if m.whole {
        let size = m.size;
        let loopback = r[places::LOOPBACK] == 1;
        iso_done::tell(
            &mut r[HEARD..LAST],
            clock,
            loopback,
            m.tx,
            m.id,
            &buffer[0..size],
        );
    }
}

// The message that the sent of what is in flight ends, if it ends one, its payload to the front of a buffer.
fn message(r: &[u8], buffer: &mut [u8]) -> Sent
    requires { IsoOpened r.now × (get_or r.now iso_flight_at 0 ≡ 0 → ⊥) × (length buffer.old ≡ most_payload) }
    ensures { (messages result buffer.new ≡ ended_by (channel_in r.now).flight (channel_in r.now).talks) × (result.size ≤ most_payload) }
{
    let owner = r[OWNER] as usize;
    if owner < 1 {
        return Sent {
            whole: false,
            tx: 0,
            id: 0,
            size: 0,
        };
    }
    if owner < 2 {
        return iso_single::single_in(&r[FLIGHT..HEARD], buffer);
    }
    let at = TALKS_AT + (owner - 2) * TALK_SIZE;
    let end = at + TALK_SIZE;
    talk_message::message_in(&r[at..end], buffer)
}

// Nothing is in flight any more; the transfer that it belonged to goes on.
fn land(r: &mut [u8])
    requires { IsoOpened r.old × (get_or r.old iso_flight_at 0 ≡ 0 → ⊥) }
    ensures { r.new ≡ iso_region.put (ready (landed_by (channel_in r.old).flight (channel_in r.old))) }
{
    let owner = r[OWNER] as usize;
    if owner < 2 {
        octets::zero(&mut r[FLIGHT..HEARD]);
        return;
    }
    let at = TALKS_AT + (owner - 2) * TALK_SIZE;
    let end = at + TALK_SIZE;
    talk_landing::landed_in(&mut r[at..end]);
    octets::zero(&mut r[FLIGHT..HEARD]);
}

// Sent: what was in flight has landed, and what it ends is told.
pub fn sent(r: &mut [u8], clock: u32) -> Result<(), Refusal>
    requires { IsoOpened r.old }
    ensures { (rates : List ℕ) → gives (code_of result) 0 [] r.new ≡ iso_outcome rates clock r.old sent_of }
{
    if r[FLIGHT] == 0 {
        return Err(Refusal::Failed);
    }
    let mut buffer = [0u8; MOST_PAYLOAD];
    let m = message(r, &mut buffer);
    land(r);
    done(r, clock, m, &buffer);
    Ok(())
}
