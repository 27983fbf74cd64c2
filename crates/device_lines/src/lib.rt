// What concerns a line or the whole box, on any bytes that are lent as its memory: power-on, a frame, time that goes on, close.
#![tactic(auto)]

ghost use Rattle.std.specs.Prelude.{◌≡◌, []};
ghost use Rattle.codes.specs.Code.{code_of};
ghost use Rattle.machine.specs.Codes.{two_rates};
ghost use Rattle.machine.specs.Step.{close as closes};
ghost use Rattle.machine.specs.Step.{advance as advances};
ghost use Rattle.machine.specs.Step.{frame as framed};
ghost use Rattle.layout.specs.Promise.{gives};
ghost use Rattle.memory.specs.Promise.{outcome, power_on_outcome};

use box_places::BOX;
use codes::Refusal;

// Any bytes of the right size become the memory of a box just switched on.
pub fn power_on(mem: &mut [u8]) -> Result<(), Refusal>
    ensures { gives (code_of result) 0 [] mem.new ≡ power_on_outcome mem.old }
{
    if mem.len() != BOX {
        return Err(Refusal::InvalidDeviceId);
    }
    octets::zero(mem);
    Ok(())
}

// Disconnects all; the clock runs on.
pub fn close(mem: &mut [u8]) -> Result<(), Refusal>
    ensures { gives (code_of result) 0 [] mem.new ≡ outcome two_rates mem.old closes }
{
    box_validity::check(mem)?;
    box_lines::close(mem)
}

// Time goes on, for the clock and every channel.
pub fn advance(mem: &mut [u8], us: u32) -> Result<(), Refusal>
    ensures { gives (code_of result) 0 [] mem.new ≡ outcome two_rates mem.old (advances us) }
{
    box_validity::check(mem)?;
    box_times::advance(mem, us)
}

// A frame from a line, offered to both of the line's channels.
pub fn frame(mem: &mut [u8], line: u32, wide: u32, id: u32, bytes: &[u8]) -> Result<(), Refusal>
    ensures { gives (code_of result) 0 [] mem.new ≡ outcome two_rates mem.old (framed line wide id bytes.now) }
{
    box_validity::check(mem)?;
    box_frames::frame(mem, line, wide, id, bytes)
}
