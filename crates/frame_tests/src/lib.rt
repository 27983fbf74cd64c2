// A bus frame's own tests, in the scope's order.
#![tactic(auto)]

ghost use Rattle.std.specs.Prelude.{◌≡◌};
ghost use Rattle.codes.specs.Code.{code_of};
ghost use Rattle.machine.specs.Channel.{frame_code};

use codes::Refusal;
use places::{NUMBER, ROW};

// The most bytes of a frame: what a row has behind the identifier.
const MOST_BYTES: usize = ROW - NUMBER;

// The checks of a frame in the scope's order: its width mark, its identifier, its data.
pub fn frame_code(wide: u32, id: u32, bytes: &[u8]) -> Result<(), Refusal>
    ensures { code_of result ≡ frame_code wide id bytes.now }
{
    if wide > 1 {
        return Err(Refusal::InvalidMsg);
    }
    if id > can::id_limit(wide == 1) {
        return Err(Refusal::InvalidMsg);
    }
    if bytes.len() > MOST_BYTES {
        return Err(Refusal::InvalidMsg);
    }
    Ok(())
}
