// Taking on an ISO 15765 channel: the frame in flight once more, or the frame that is chosen next.
#![tactic(auto)]

ghost use Rattle.std.specs.Prelude.{◌≡◌, List, ℕ};
ghost use Rattle.codes.specs.Code.{code_of};
ghost use Rattle.machine.specs.Channel.{take_next};
ghost use Rattle.layout.specs.Promise.{gives};
ghost use Rattle.iso_layout.specs.Promise.{IsoOpened, iso_outcome};

use codes::Refusal;
use iso_places::{FLIGHT, RECORD};

// The frame to send next, to a buffer; it stays in flight.
pub fn take(r: &mut [u8], buffer: &mut [u8]) -> Result<(), Refusal>
    requires { IsoOpened r.old }
    ensures { (rates : List ℕ) (t : ℕ) → gives (code_of result) 0 buffer.new r.new ≡ iso_outcome rates t r.old (take_next buffer.old) }
{
    if buffer.len() < RECORD {
        return Err(Refusal::NullParameter);
    }
    if r[FLIGHT] != 0 {
        return iso_retaking::again(r, buffer);
    }
    if iso_choosing::choose(r) {
        return iso_retaking::again(r, buffer);
    }
    Err(Refusal::BufferEmpty)
}
