// Decided on the identifier alone, on a memory of the whole box that is known to be valid. The number is that of a raw channel.
#![tactic(auto)]

ghost use Rattle.std.specs.Prelude.{◌≡◌, List, [], ℕ, T};
ghost use Rattle.machine.specs.Channel.{decide as decide_call};
ghost use Rattle.machine.specs.Step.{call};
ghost use Rattle.layout.specs.Promise.{gives};
ghost use Rattle.codes.specs.Code.{code_of};
ghost use Rattle.decision.specs.Number.{told};
ghost use Rattle.memory.specs.Memory.{valid};
ghost use Rattle.memory.specs.Promise.{outcome};

use calling::Listeners;
use codes::Refusal;
use decision::Decision;

// What becomes of every frame of a width with an identifier.
pub fn decide(mem: &mut [u8], channel: u32, wide: u32, id: u32) -> Result<Decision, Refusal>
    requires { T (valid mem.old) }
    ensures { (rates : List ℕ) → gives (code_of result) (told result) [] mem.new ≡ outcome rates mem.old (call channel (decide_call wide id)) }
{
    calling::on_raw_channel(
        mem,
        channel,
        Listeners::Serve,
        |r| deciding::decide(r, wide, id),
    )
}
