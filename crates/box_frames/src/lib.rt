// A frame from a line, on a memory of the whole box that is known to be valid.
#![tactic(auto)]

ghost use Rattle.std.specs.Prelude.{◌≡◌, List, [], ℕ, T, length};
ghost use Rattle.codes.specs.Code.{code_of};
ghost use Rattle.machine.specs.Channel.{frame_code, on_frame};
ghost use Rattle.machine.specs.Step.{frame as framed};
ghost use Rattle.layout.specs.Sizes.{region_size};
ghost use Rattle.layout.specs.Memory.{region};
ghost use Rattle.layout.specs.Promise.{gives};
ghost use Rattle.memory.specs.Memory.{valid};
ghost use Rattle.memory.specs.Promise.{outcome};

use box_places::ISO_REGIONS;
use codes::Refusal;
use places::{LINES, REGIONS};

// A good frame at a clock, on the region of a raw channel, open or closed.
fn offer(r: &mut [u8], clock: u32, wide: u32, id: u32, bytes: &[u8])
    requires { (length r.old ≡ region_size) × T (region.valid r.old) × (frame_code wide id bytes.now ≡ 0x00) }
    ensures { r.new ≡ region.put (on_frame clock (region.get r.old) wide id bytes.now) }
{
    if r[0] == 0 {
        return;
    }
    frames::meet(r, clock, wide == 1, id, bytes);
}

// A frame from a line: refused by its own tests, else offered to the line's raw channel and to its ISO 15765 channel.
pub fn frame(mem: &mut [u8], line: u32, wide: u32, id: u32, bytes: &[u8]) -> Result<(), Refusal>
    requires { T (valid mem.old) }
    ensures { (rates : List ℕ) → gives (code_of result) 0 [] mem.new ≡ outcome rates mem.old (framed line wide id bytes.now) }
{
    let index = line as usize;
    if index >= LINES {
        return Err(Refusal::PinInvalid);
    }
    frame_tests::frame_code(wide, id, bytes)?;
    let now = integers::word_at(mem, 0);
    let a = REGIONS + index * places::REGION;
    offer(&mut mem[a..a + places::REGION], now, wide, id, bytes);
    let b = ISO_REGIONS + index * iso_places::REGION;
    iso_frames::frame(&mut mem[b..b + iso_places::REGION], now, wide, id, bytes);
    Ok(())
}
