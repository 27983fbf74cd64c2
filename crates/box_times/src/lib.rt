// Time that goes on, on a memory of the whole box that is known to be valid.
#![tactic(auto)]

ghost use Rattle.std.specs.Prelude.{◌≡◌, List, [], map, ℕ, ◌+◌, ◌*◌, ◌%◌, ◌≤◌, T, length};
ghost use Rattle.codec.specs.Word.{word, word_at};
ghost use Rattle.codec.specs.Code.{many};
ghost use Rattle.codes.specs.Code.{code_of};
ghost use Rattle.machine.specs.Limits.{lines, most_advance};
ghost use Rattle.machine.specs.Channel.{on_advance};
ghost use Rattle.machine.specs.Step.{advance as advances};
ghost use Rattle.layout.specs.Sizes.{number_size, region_size};
ghost use Rattle.layout.specs.Memory.{region};
ghost use Rattle.layout.specs.Promise.{gives};
ghost use Rattle.iso.specs.Iso.{on_iso_advance};
ghost use Rattle.iso_layout.specs.Sizes.{iso_region_size};
ghost use Rattle.iso_layout.specs.Region.{iso_region};
ghost use Rattle.memory.specs.Memory.{valid};
ghost use Rattle.memory.specs.Promise.{outcome};

use box_places::{BOX, ISO_REGIONS};
use clock::Clock;
use codes::Refusal;
use places::{LINES, NUMBER, REGIONS};

// The longest advance in microseconds.
const MOST_ADVANCE: u32 = 1000000;

// Every raw channel's periodics move on.
fn advance_raws(s: &mut [u8], us: u32)
    requires { (length s.old ≡ lines * region_size) × T ((many lines region).valid s.old) × (us ≤ most_advance) }
    ensures { s.new ≡ (many lines region).put (map (on_advance us) ((many lines region).get s.old)) }
{
    for i in 0..LINES {
        let a = i * places::REGION;
        timers::later(&mut s[a..a + places::REGION], us);
    }
}

// Every ISO 15765 channel's conversations move on.
fn advance_isos(s: &mut [u8], us: u32)
    requires { (length s.old ≡ lines * iso_region_size) × T ((many lines iso_region).valid s.old) × (us ≤ most_advance) }
    ensures { s.new ≡ (many lines iso_region).put (map (on_iso_advance us) ((many lines iso_region).get s.old)) }
{
    for i in 0..LINES {
        let a = i * iso_places::REGION;
        iso_timers::later(&mut s[a..a + iso_places::REGION], us);
    }
}

// The clock moves on.
fn advance_clock(c: &mut [u8], us: u32)
    requires { length c.old ≡ number_size }
    ensures { c.new ≡ word ((word_at 0 c.old + us) % 0x1_0000_0000) }
{
    let clock = Clock::at(integers::word_at(c, 0)).advance(us);
    integers::put_word(c, clock.us);
}

// Time goes on, for the clock and every channel.
pub fn advance(mem: &mut [u8], us: u32) -> Result<(), Refusal>
    requires { T (valid mem.old) }
    ensures { (rates : List ℕ) → gives (code_of result) 0 [] mem.new ≡ outcome rates mem.old (advances us) }
{
    if us > MOST_ADVANCE {
        return Err(Refusal::InvalidTimeInterval);
    }
    advance_raws(&mut mem[REGIONS..ISO_REGIONS], us);
    advance_isos(&mut mem[ISO_REGIONS..BOX], us);
    advance_clock(&mut mem[0..NUMBER], us);
    Ok(())
}
