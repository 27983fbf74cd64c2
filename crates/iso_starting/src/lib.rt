// Starting a flow-control filter on the region of an ISO 15765 channel: its conversation lies at the first free place.
#![tactic(auto)]

ghost use Rattle.std.specs.Prelude.{◌≡◌, List, [], ℕ};
ghost use Rattle.codes.specs.Code.{code_of, value_of};
ghost use Rattle.machine.specs.Channel.{start_flow};
ghost use Rattle.layout.specs.Promise.{gives};
ghost use Rattle.iso_layout.specs.Promise.{IsoOpened, iso_outcome};

use codes::Refusal;
use iso_places::{MESSAGES, TALKS_AT};

// Where the second conversation stands.
const SECOND: usize = TALKS_AT + iso_places::TALK_SIZE;

// Start a filter: its number is the smallest free one, its conversation has no transfer yet.
pub fn start_in(
    r: &mut [u8],
    kind: u32,
    mask: &[u8],
    pattern: &[u8],
    flow: &[u8],
) -> Result<u32, Refusal>
    requires { IsoOpened r.old }
    ensures { (rates : List ℕ) (t : ℕ) → gives (code_of result) (value_of result) [] r.new ≡ iso_outcome rates t r.old (start_flow kind mask.now pattern.now flow.now) }
{
    talks::code_in(r, kind, mask, pattern, flow)?;
    let wide = talk_starts::names(mask).tx / 0x100 % 2 == 1;
    let heard = talk_starts::names(pattern).id;
    let told = talk_starts::names(flow).id;
    if r[TALKS_AT] == 0 {
        talk_starts::put_talk(&mut r[TALKS_AT..SECOND], wide, heard, told);
        return Ok(1);
    }
    talk_starts::put_talk(&mut r[SECOND..MESSAGES], wide, heard, told);
    Ok(2)
}
