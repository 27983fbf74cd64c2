// The verdict of a channel's filters on a frame: some pass filter matches, and no block filter does. A narrow frame is looked up in the maps; the
// walk goes over those filters alone that are in neither.
#![tactic(auto)]

ghost use Rattle.std.specs.Prelude.{◌≡◌, not, ◌&&◌, List, ◌++◌, ℕ, ◌+◌, ◌≤◌, ◌<◌, length, take};
ghost use Rattle.machine.specs.Limits.{most_places};
ghost use Rattle.machine.specs.Message.{id_bytes, id_limit};
ghost use Rattle.machine.specs.Filter.{passes};
ghost use Rattle.layout.specs.Sizes.{rows_size, masks_in, patterns_in, filters_size};
ghost use Rattle.layout.specs.Memory.{mapped};
ghost use Rattle.filterbank.specs.Part.{FilterPart, MappedPart};
ghost use Rattle.map_rule.specs.Map.{map_size, bit_in};
ghost use Rattle.filterwalk.specs.Columns.{Heads, ten_rows, filters_in, passes_with};
ghost use Rattle.verdict.specs.Others.{kept_type, OthersOf, turning_kind};

use places::{FILTERS_SIZE, MAP_SIZE, MAPPED_SIZE, MASKS_IN, PATTERNS_IN, PLACES, ROW};

// The block map begins behind the pass map.
const BLOCK_MAP: usize = FILTERS_SIZE + MAP_SIZE;

// Ten rows, by value.
pub fn rows(mem: &[u8], at: usize) -> [[u8; ROW]; PLACES]
    requires { at + rows_size ≤ length mem.now }
    ensures { result ≡ ten_rows at mem.now }
{
    let mut out = [[0u8; ROW]; PLACES];
    for f in 0..PLACES {
        let from = at + f * ROW;
        let to = from + ROW;
        octets::copy(&mut out[f], &mem[from..to]);
    }
    out
}

// The type of the filter at place f, 0 where it is one of the map.
fn kept_type(part: &[u8], f: usize) -> u8
    requires { (length part.now ≡ filters_size) × (f < most_places) }
    ensures { result ≡ kept_type part.now f }
{
    if maps::mapped(part, f) {
        return 0;
    }
    part[f]
}

// The heads of the filters that stay in the list: a place with a filter of the map counts as empty.
fn others(part: &[u8]) -> [u8; MASKS_IN]
    requires { length part.now ≡ filters_size }
    ensures { OthersOf part.now result }
{
    let mut heads = [0u8; MASKS_IN];
    octets::copy(&mut heads, &part[0..MASKS_IN]);
    for f in 0..PLACES {
        heads[f] = kept_type(part, f);
    }
    heads
}

// The type of the filters that could still turn a verdict.
fn turning(passed: bool) -> u8
    ensures { result ≡ turning_kind passed }
{
    if passed {
        return filterwalk::BLOCK;
    }
    filterwalk::PASS
}

// The verdict of the filters of these heads, where `passed` says that a filter of the map lets the frame in.
fn by_list(
    part: &[u8],
    heads: &[u8],
    wide: bool,
    frame: &[u8; ROW],
    len: usize,
    passed: bool,
) -> bool
    requires { (length part.now ≡ filters_size) × Heads heads.now × (len ≤ length frame.now) }
    ensures { result ≡ passes_with passed (filters_in heads.now (ten_rows masks_in part.now) (ten_rows patterns_in part.now)) wide (take len frame.now) }
{
    if filterwalk::none_of(heads, turning(passed)) {
        return passed;
    }
    let masks = rows(part, MASKS_IN);
    let patterns = rows(part, PATTERNS_IN);
    filterwalk::verdict(heads, masks, patterns, wide, frame, len, passed)
}

// Does a filter of a map match? None does where the frame is wide.
fn in_map(map: &[u8], wide: bool, id: u32) -> bool
    requires { (length map.now ≡ map_size) × (id ≤ id_limit wide) }
    ensures { result ≡ (not wide && bit_in map.now id) }
{
    if wide {
        return false;
    }
    maps::bit(map, id)
}

// Do the filters let a frame in? The frame is its identifier's four bytes and its data, the first `len` bytes of a row.
pub fn lets_in(m: &[u8], wide: bool, id: u32, frame: &[u8; ROW], len: usize) -> bool
    requires { MappedPart m.now × (len ≤ length frame.now) × (id ≤ id_limit wide) }
    ensures { (flags : ℕ) (rest : List ℕ) → take len frame.now ≡ id_bytes id ++ rest → result ≡ passes ((mapped flags).get m.now) wide (id_bytes id ++ rest) }
{
    if in_map(&m[BLOCK_MAP..MAPPED_SIZE], wide, id) {
        return false;
    }
    let passed = in_map(&m[FILTERS_SIZE..BLOCK_MAP], wide, id);
    let heads = others(&m[0..FILTERS_SIZE]);
    by_list(&m[0..FILTERS_SIZE], &heads, wide, frame, len, passed)
}
