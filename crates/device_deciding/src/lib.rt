// Decided on the identifier alone, on any bytes that are lent as the memory. The number is that of a raw channel.
#![tactic(auto)]

ghost use Rattle.std.specs.Prelude.{◌≡◌, []};
ghost use Rattle.machine.specs.Codes.{two_rates};
ghost use Rattle.machine.specs.Channel.{decide as decide_call};
ghost use Rattle.machine.specs.Step.{call};
ghost use Rattle.layout.specs.Promise.{gives};
ghost use Rattle.codes.specs.Code.{code_of};
ghost use Rattle.decision.specs.Number.{told};
ghost use Rattle.memory.specs.Promise.{outcome};

use codes::Refusal;
use decision::Decision;

// What becomes of every frame of a width with an identifier.
pub fn decide(mem: &mut [u8], channel: u32, wide: u32, id: u32) -> Result<Decision, Refusal>
    ensures { gives (code_of result) (told result) [] mem.new ≡ outcome two_rates mem.old (call channel (decide_call wide id)) }
{
    box_validity::check(mem)?;
    box_deciding::decide(mem, channel, wide, id)
}
