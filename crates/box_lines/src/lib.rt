// What concerns the whole box, on a memory of the whole box that is known to be valid: close.
#![tactic(auto)]

ghost use Rattle.std.specs.Prelude.{◌≡◌, List, [], ℕ, T};
ghost use Rattle.codes.specs.Code.{code_of};
ghost use Rattle.machine.specs.Step.{close as closes};
ghost use Rattle.layout.specs.Promise.{gives};
ghost use Rattle.memory.specs.Memory.{valid};
ghost use Rattle.memory.specs.Promise.{outcome};

use box_places::BOX;
use codes::Refusal;
use places::REGIONS;

// Disconnects all; the clock runs on.
pub fn close(mem: &mut [u8]) -> Result<(), Refusal>
    requires { T (valid mem.old) }
    ensures { (rates : List ℕ) → gives (code_of result) 0 [] mem.new ≡ outcome rates mem.old closes }
{
    octets::zero(&mut mem[REGIONS..BOX]);
    Ok(())
}
