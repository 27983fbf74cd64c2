// Decided on the identifier alone: what a channel's filters say to every frame of a width with an identifier.
#![tactic(auto)]

ghost use Rattle.std.specs.Prelude.{◌≡◌, ℕ, ◌+◌, ◌≤◌, ◌<◌, length};
ghost use Rattle.machine.specs.Limits.{most_places, most_data};
ghost use Rattle.machine.specs.Message.{id_bytes};
ghost use Rattle.machine.specs.Early.{early};
ghost use Rattle.layout.specs.Sizes.{filters_size};
ghost use Rattle.layout.specs.Memory.{filters};
ghost use Rattle.decision.specs.Number.{said};
ghost use Rattle.filterbank.specs.Part.{FilterPart};
ghost use Rattle.early.specs.Cubes.{data_at, kept_at, mask_at, pattern_at};

use decision::Decision;
use early_rule::Cube;
use places::{MASKS_IN, NUMBER, PATTERNS_IN, PLACES, ROW, WIDTHS_IN};

// The eight data bytes of the row at a place, behind its four of an identifier, as a number.
fn word(part: &[u8], at: usize) -> u64
    requires { at + most_data ≤ length part.now }
    ensures { result ≡ data_at part.now at }
{
    let low = integers::word_at(part, at + NUMBER) as u64;
    let high = integers::word_at(part, at + NUMBER + NUMBER) as u64;
    low + 0x1_0000_0000 * high
}

// Is a filter of this width at place f, whose identifier bytes are met by the identifier?
fn kept(part: &[u8], f: usize, wide: bool, id: u32) -> bool
    requires { (length part.now ≡ filters_size) × (f < most_places) }
    ensures { result ≡ kept_at part.now wide id f }
{
    let mask = integers::id_at(part, MASKS_IN + f * ROW);
    let pattern = integers::id_at(part, PATTERNS_IN + f * ROW);
    (part[f] != 0) & (wide == (1 == part[WIDTHS_IN + f])) & ((id & mask) == pattern)
}

// The data bytes of the filter at place f as a cube, where it is kept; else the cube that holds nothing.
fn cube_at(part: &[u8], f: usize, wide: bool, id: u32) -> Cube
    requires { (length part.now ≡ filters_size) × (f < most_places) }
    ensures { (result.mask ≡ mask_at part.now wide id f) × (result.pattern ≡ pattern_at part.now wide id f) }
{
    let keep = kept(part, f, wide, id);
    let mask = word(part, MASKS_IN + f * ROW);
    let pattern = word(part, PATTERNS_IN + f * ROW);
    early_rule::chosen(keep, mask, pattern)
}

// The answer of a channel's filters for every frame of a width with an identifier.
pub fn answer(part: &[u8], wide: bool, id: u32) -> Decision
    requires { FilterPart part.now }
    ensures { (flags : ℕ) → said result ≡ early ((filters flags).get part.now) wide (id_bytes id) }
{
    let mut ms = [0u64; PLACES];
    let mut ps = [1u64; PLACES];
    for f in 0..PLACES {
        let one = cube_at(part, f, wide, id);
        ms[f] = one.mask;
        ps[f] = one.pattern;
    }
    early_rule::decide(part, &ms, &ps)
}
