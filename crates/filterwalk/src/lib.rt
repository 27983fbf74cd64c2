// The walk of ten filters over a frame: block filters first, pass filters only where no block filter matches, each up to the first that matches.
#![tactic(auto)]

ghost use Rattle.std.specs.Prelude.{◌≡◌, false, ◌||◌, ◌≤◌, eqb, length, take};
ghost use Rattle.machine.specs.Limits.{most_places};
ghost use Rattle.machine.specs.Filter.{hits as some_hits};
ghost use Rattle.layout.specs.Sizes.{masks_in};
ghost use Rattle.filterwalk.specs.Columns.{Heads, EmptyFrom, none_of, filters_in, passes_with};

use places::{PLACES, ROW, SIZES_IN, WIDTHS_IN};

// The types of filters.
pub const PASS: u8 = 1;

pub const BLOCK: u8 = 2;

// Has none of the ten places a filter of this type? No exit inside the loop, so that it runs on whole vectors.
pub fn none_of(heads: &[u8], kind: u8) -> bool
    requires { length heads.now ≡ masks_in }
    ensures { result ≡ none_of heads.now kind }
{
    let mut none = true;
    for f in 0..PLACES {
        none = none & (heads[f] != kind);
    }
    none
}

// The place behind the last filter: those from there on are empty.
pub fn end_of(heads: &[u8]) -> usize
    requires { length heads.now ≡ masks_in }
    ensures { (result ≤ most_places) × EmptyFrom heads.now result }
{
    for last in (0..PLACES).rev() {
        if heads[last] != 0 {
            return last + 1;
        }
    }
    0
}

// Does a filter of this type and of the frame's width match the first `len` bytes of a row? A longer one doesn't. Of the heads the first ten are the types, then ten width marks and ten sizes. The
// comparison of one filter ends at the first byte that differs, the walk at the first filter that matches or behind the last one.
pub fn hits(
    heads: &[u8],
    masks: &[[u8; ROW]; PLACES],
    patterns: &[[u8; ROW]; PLACES],
    kind: u8,
    wide: bool,
    frame: &[u8; ROW],
    len: usize,
    end: usize,
) -> bool
    requires { Heads heads.now × (1 ≤ kind) × (kind ≤ 2) × (len ≤ length frame.now) × (end ≤ most_places) × EmptyFrom heads.now end }
    ensures { result ≡ some_hits (eqb kind 2) (filters_in heads.now masks.now patterns.now) wide (take len frame.now) }
{
    'filters: for f in 0..end {
        if heads[f] != kind {
            continue;
        }
        if wide != (1 == heads[WIDTHS_IN + f]) {
            continue;
        }
        let size = heads[SIZES_IN + f] as usize;
        if size > len {
            continue;
        }
        for b in 0..size {
            if frame[b] & masks[f][b] != patterns[f][b] {
                continue 'filters;
            }
        }
        return true;
    }
    false
}

// Does a pass filter match, where `passed` says that a filter besides these ten does?
fn wanted(
    heads: &[u8],
    masks: &[[u8; ROW]; PLACES],
    patterns: &[[u8; ROW]; PLACES],
    wide: bool,
    frame: &[u8; ROW],
    len: usize,
    end: usize,
    passed: bool,
) -> bool
    requires { Heads heads.now × (len ≤ length frame.now) × (end ≤ most_places) × EmptyFrom heads.now end }
    ensures { result ≡ (passed || some_hits false (filters_in heads.now masks.now patterns.now) wide (take len frame.now)) }
{
    if passed {
        return true;
    }
    hits(heads, masks, patterns, PASS, wide, frame, len, end)
}

// The verdict of ten filters on a frame, the first `len` bytes of a row, where `passed` says that a filter besides these lets it in: that one or some
// pass filter matches, and no block filter does.
pub fn verdict(
    heads: &[u8],
    masks: [[u8; ROW]; PLACES],
    patterns: [[u8; ROW]; PLACES],
    wide: bool,
    frame: &[u8; ROW],
    len: usize,
    passed: bool,
) -> bool
    requires { Heads heads.now × (len ≤ length frame.now) }
    ensures { result ≡ passes_with passed (filters_in heads.now masks patterns) wide (take len frame.now) }
{
    let end = end_of(heads);
    if none_of(heads, BLOCK) {
        return wanted(heads, &masks, &patterns, wide, frame, len, end, passed);
    }
    if hits(heads, &masks, &patterns, BLOCK, wide, frame, len, end) {
        return false;
    }
    wanted(heads, &masks, &patterns, wide, frame, len, end, passed)
}
