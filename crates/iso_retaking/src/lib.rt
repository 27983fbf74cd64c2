// Taking on an ISO 15765 channel where it changes nothing: the buffer is too short, or the frame in flight is given once more.
#![tactic(auto)]

ghost use Rattle.std.specs.Prelude.{◌≡◌, List, ℕ, ◌≤◌, length, get_or};
ghost use Rattle.codes.specs.Code.{code_of};
ghost use Rattle.machine.specs.Channel.{take_next};
ghost use Rattle.layout.specs.Promise.{gives};
ghost use Rattle.iso.specs.Limits.{iso_record_size};
ghost use Rattle.iso_layout.specs.Sizes.{iso_flight_at};
ghost use Rattle.iso_layout.specs.Promise.{IsoOpened, iso_outcome};

use codes::Refusal;
use iso_places::{FLIGHT, HEARD, RECORD};

// Where in a region the frame in flight begins, behind its mark and what it belongs to.
const FLYING: usize = FLIGHT + 2;

// Take, where a frame is in flight: it once more.
pub fn again(r: &[u8], buffer: &mut [u8]) -> Result<(), Refusal>
    requires { IsoOpened r.now × (get_or r.now iso_flight_at 0 ≡ 0 → ⊥) × (iso_record_size ≤ length buffer.old) }
    ensures { (rates : List ℕ) (t : ℕ) → gives (code_of result) 0 buffer.new r.now ≡ iso_outcome rates t r.now (take_next buffer.old) }
{
    octets::copy(&mut buffer[0..RECORD], &r[FLYING..HEARD]);
    Ok(())
}
