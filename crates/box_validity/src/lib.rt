// Are these bytes a memory of the whole box? Its four raw regions and its four ISO 15765 regions, each looked at by itself.
#![tactic(auto)]

ghost use Rattle.std.specs.Prelude.{◌≡◌, length, drop};
ghost use Rattle.codec.specs.Code.{valid_all};
ghost use Rattle.machine.specs.Limits.{lines};
ghost use Rattle.layout.specs.Sizes.{number_size};
ghost use Rattle.layout.specs.Memory.{region};
ghost use Rattle.iso_layout.specs.Region.{iso_region};
ghost use Rattle.memory.specs.Sizes.{isos_at, box_size};
ghost use Rattle.memory.specs.Memory.{valid as is_valid};
ghost use Rattle.box_validity.specs.Checked.{Checked};

use box_places::{BOX, ISO_REGIONS};
use codes::Refusal;

// Are the four raw regions valid?
fn raw_rows(mem: &[u8]) -> bool
    requires { length mem.now ≡ box_size }
    ensures { result ≡ valid_all region lines (drop number_size mem.now) }
{
    let mut good = true;
    for i in 0..places::LINES {
        let a = places::REGIONS + i * places::REGION;
        let e = a + places::REGION;
        good = good & validity::region_valid(&mem[a..e]);
    }
    good
}

// Are the four ISO 15765 regions valid?
fn iso_rows(mem: &[u8]) -> bool
    requires { length mem.now ≡ box_size }
    ensures { result ≡ valid_all iso_region lines (drop isos_at mem.now) }
{
    let mut good = true;
    for i in 0..places::LINES {
        let a = ISO_REGIONS + i * iso_places::REGION;
        let e = a + iso_places::REGION;
        good = good & iso_validity::iso_region(&mem[a..e]);
    }
    good
}

// Is this a memory of the whole box?
pub fn valid(mem: &[u8]) -> bool
    ensures { result ≡ is_valid mem.now }
{
    if mem.len() != BOX {
        return false;
    }
    raw_rows(mem) & iso_rows(mem)
}

// What a call on these bytes is refused for where they are no memory of the whole box.
pub fn check(mem: &[u8]) -> Result<(), Refusal>
    ensures { Checked mem.now result }
{
    if !valid(mem) {
        return Err(Refusal::InvalidDeviceId);
    }
    Ok(())
}
