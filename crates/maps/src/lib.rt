// The two maps of a channel's narrow filters, pass first: made from the filters, compared with bytes, and asked.
#![tactic(auto)]

ghost use Rattle.std.specs.Prelude.{◌≡◌, ℕ, ◌<◌, length, take};
ghost use Rattle.derived.specs.Derived.{same_bytes};
ghost use Rattle.map_rule.specs.Map.{map_size, maps_size, narrow_ids, map_bytes, bit_in};
ghost use Rattle.map_rule.specs.Map.{maps as maps_of};
ghost use Rattle.machine.specs.Limits.{most_places};
ghost use Rattle.layout.specs.Sizes.{filters_size};
ghost use Rattle.layout.specs.Memory.{filters};
ghost use Rattle.layout.specs.Memory.{mapped as mapped_of};
ghost use Rattle.filterbank.specs.Part.{FilterPart, Unmapped};
ghost use Rattle.maps.specs.Chosen.{mapped_at, none_mapped, chosen_at};

use filterwalk::BLOCK;
use places::{
    FILTERS_SIZE, MAP_SIZE, MAPPED_SIZE, MAPS_SIZE, MASKS_IN, NUMBER, PATTERNS_IN, PLACES, ROW,
    SIZES_IN, WIDTHS_IN,
};

// The bytes of an identifier in a row, and where its two lower ones are.
const ID_SIZE: u8 = NUMBER as u8;

const HIGH: usize = 2;

const LOW: usize = 3;

// Is a filter of the map at place f, narrow and no longer than an identifier?
pub fn mapped(part: &[u8], f: usize) -> bool
    requires { (length part.now ≡ filters_size) × (f < most_places) }
    ensures { result ≡ mapped_at part.now f }
{
    (part[f] != 0) & (1 != part[WIDTHS_IN + f]) & (part[SIZES_IN + f] <= ID_SIZE)
}

// Has none of the ten places a filter of the map?
fn none_mapped(part: &[u8]) -> bool
    requires { length part.now ≡ filters_size }
    ensures { result ≡ none_mapped part.now }
{
    let mut none = true;
    for f in 0..PLACES {
        none = none & !mapped(part, f);
    }
    none
}

// Is a filter of the map and of this kind at place f, whose first two bytes an identifier of eleven bits meets?
fn chosen(part: &[u8], block: bool, f: usize) -> bool
    requires { (length part.now ≡ filters_size) × (f < most_places) }
    ensures { result ≡ chosen_at part.now block f }
{
    let pattern = PATTERNS_IN + f * ROW;
    mapped(part, f)
        & ((part[f] == BLOCK) == block)
        & ((0 == part[pattern]) & (0 == part[pattern + 1]))
}

// The map of a kind, written anew: from zeros, one filter after the other.
fn make(part: &[u8], block: bool, map: &mut [u8])
    requires { FilterPart part.now × (length map.old ≡ map_size) }
    ensures { (flags : ℕ) → map.new ≡ map_bytes block ((filters flags).get part.now) }
{
    octets::zero(map);
    for f in 0..PLACES {
        if chosen(part, block, f) {
            let mask = MASKS_IN + f * ROW;
            let pattern = PATTERNS_IN + f * ROW;
            map_bands::join(
                map,
                part[mask + HIGH],
                part[pattern + HIGH],
                part[mask + LOW],
                part[pattern + LOW],
            );
        }
    }
}

// The two maps of a channel's filters: pass first, then block.
fn write(part: &[u8], map: &mut [u8])
    requires { FilterPart part.now × (length map.old ≡ maps_size) }
    ensures { (flags : ℕ) → map.new ≡ maps_of ((filters flags).get part.now) }
{
    make(part, false, &mut map[0..MAP_SIZE]);
    make(part, true, &mut map[MAP_SIZE..MAPS_SIZE]);
}

// The maps made anew behind a channel's filters.
pub fn remake(m: &mut [u8])
    requires { Unmapped m.old }
    ensures { (flags : ℕ) → m.new ≡ (mapped_of flags).put ((filters flags).get (take filters_size m.old)) }
{
    let mut part = [0u8; FILTERS_SIZE];
    octets::copy(&mut part, &m[0..FILTERS_SIZE]);
    write(&part, &mut m[FILTERS_SIZE..MAPPED_SIZE]);
}

// Are these bytes the map of a kind?
fn fits(part: &[u8], block: bool, map: &[u8]) -> bool
    requires { FilterPart part.now × (length map.now ≡ map_size) }
    ensures { (flags : ℕ) → result ≡ same_bytes map.now (map_bytes block ((filters flags).get part.now)) }
{
    let mut own = [0u8; MAP_SIZE];
    make(part, block, &mut own);
    map_bands::same(map, &own)
}

// Are these bytes the maps of a channel's filters? Zeros where no filter is of the map.
pub fn fit(part: &[u8], map: &[u8]) -> bool
    requires { FilterPart part.now × (length map.now ≡ maps_size) }
    ensures { (flags : ℕ) → result ≡ same_bytes map.now (maps_of ((filters flags).get part.now)) }
{
    if none_mapped(part) {
        return octets::all_zero(map);
    }
    fits(part, false, &map[0..MAP_SIZE]) & fits(part, true, &map[MAP_SIZE..MAPS_SIZE])
}

// The bit of an identifier in a map.
pub fn bit(map: &[u8], id: u32) -> bool
    requires { (length map.now ≡ map_size) × (id < narrow_ids) }
    ensures { result ≡ bit_in map.now id }
{
    let byte = map[(id / 8) as usize];
    (byte >> (id % 8)) % 2 == 1
}
