// What an ISO 15765 channel holds comes to its end, on its region: a conversation is stopped, one kind of all is cleared.
#![tactic(auto)]

ghost use Rattle.std.specs.Prelude.{◌≡◌, List, [], ℕ};
ghost use Rattle.codes.specs.Code.{code_of};
ghost use Rattle.machine.specs.Channel.{clear, stop_filter};
ghost use Rattle.layout.specs.Promise.{gives};
ghost use Rattle.iso_layout.specs.Promise.{IsoOpened, iso_outcome};

use codes::Refusal;
use iso_places::{FLIGHT, HEARD, LAST, MESSAGES, TALK_SIZE, TALKS_AT};

// The largest number of a conversation.
const MOST_NUMBER: u32 = iso_places::TALKS as u32;

// Stop the filter of a number: its conversation's place is empty again, and a frame in flight of its transfer belongs to nothing.
pub fn stop_in(r: &mut [u8], number: u32) -> Result<(), Refusal>
    requires { IsoOpened r.old }
    ensures { (rates : List ℕ) (t : ℕ) → gives (code_of result) 0 [] r.new ≡ iso_outcome rates t r.old (stop_filter number) }
{
    if !filtercheck::between(1, MOST_NUMBER, number) {
        return Err(Refusal::InvalidFilterId);
    }
    let at = TALKS_AT + (number as usize - 1) * TALK_SIZE;
    let end = at + TALK_SIZE;
    if r[at] == 0 {
        return Err(Refusal::InvalidFilterId);
    }
    octets::zero(&mut r[at..end]);
    iso_flights::disown(r);
    Ok(())
}

// Clear: written messages, the receive queue with its lost mark, or all conversations become zeros; periodics there are none.
// The kinds are the numbers of the C interface; each has a return of its own, since each leaves another part of the channel.
pub fn clear_in(r: &mut [u8], kind: u32) -> Result<(), Refusal>
    requires { IsoOpened r.old }
    ensures { (rates : List ℕ) (t : ℕ) → gives (code_of result) 0 [] r.new ≡ iso_outcome rates t r.old (clear kind) }
{
    if kind == 1 {
        octets::zero(&mut r[MESSAGES..FLIGHT]);
        return Ok(());
    }
    if kind == 2 {
        octets::zero(&mut r[HEARD..LAST]);
        return Ok(());
    }
    if kind == 3 {
        return Ok(());
    }
    if kind == 4 {
        octets::zero(&mut r[TALKS_AT..MESSAGES]);
        iso_flights::disown(r);
        return Ok(());
    }
    Err(Refusal::InvalidIoctlId)
}
