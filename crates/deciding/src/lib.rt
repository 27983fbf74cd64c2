// The question what a raw channel does with every frame of a width and an identifier, on the channel's region.
#![tactic(auto)]

ghost use Rattle.std.specs.Prelude.{◌≡◌, List, [], ℕ};
ghost use Rattle.machine.specs.Channel.{decide as decide_call};
ghost use Rattle.layout.specs.Promise.{gives, Opened, call_outcome};
ghost use Rattle.codes.specs.Code.{code_of};
ghost use Rattle.decision.specs.Number.{told};

use codes::Refusal;
use decision::Decision;
use places::{FILTERS, FLAGS, MAPS};

// Decides: a bus frame's tests of its width mark and identifier; a width that the connection doesn't take is dropped; else the filters' answer.
pub fn decide(r: &[u8], wide: u32, id: u32) -> Result<Decision, Refusal>
    requires { Opened r.now }
    ensures { (rates : List ℕ) (t : ℕ) → gives (code_of result) (told result) [] r.now ≡ call_outcome rates t r.now (decide_call wide id) }
{
    frame_tests::frame_code(wide, id, &r[0..0])?;
    if !can::takes_width(integers::word_at(r, FLAGS), wide == 1) {
        return Ok(Decision::Dropped);
    }
    Ok(early::answer(&r[FILTERS..MAPS], wide == 1, id))
}
