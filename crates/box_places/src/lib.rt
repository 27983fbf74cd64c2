// Where the regions lie in the memory of the whole box, for code: each number said once. That they are the numbers of the definitions is the promise
// of `numbers`.
#![tactic(auto)]

ghost use Rattle.std.specs.Prelude.{◌≡◌};
ghost use Rattle.box_places.specs.Named.{named};

// Four raw CAN channels and four ISO 15765 channels.
pub const CHANNELS: usize = places::LINES + places::LINES;
// The ISO 15765 regions lie behind the raw ones, of which there are four; then the memory ends.
pub const ISO_REGIONS: usize = places::REGIONS + places::REGIONS_SIZE;

pub const BOX: usize = ISO_REGIONS + places::LINES * iso_places::REGION;

// Every number above, in order: those of the definitions.
pub fn numbers() -> [usize; 3]
    ensures { result ≡ named }
{
    [CHANNELS, ISO_REGIONS, BOX]
}
