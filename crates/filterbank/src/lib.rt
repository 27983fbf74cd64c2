// The filter bank of a channel, ten places for filters: the first empty one, and another filter at a place.
#![tactic(auto)]

ghost use Rattle.std.specs.Prelude.{◌≡◌, ℕ, ◌+◌, ◌≤◌, ◌<◌, length, set, take, drop};
ghost use Rattle.std.proofs.Math.Option.{Option};
ghost use Rattle.machine.specs.Limits.{most_places, most_data};
ghost use Rattle.machine.specs.Message.{twelve};
ghost use Rattle.machine.specs.Filter.{Filter, free};
ghost use Rattle.layout.specs.Memory.{filter_parts, filters};
ghost use Rattle.filterbank.specs.Part.{FilterPart};

use places::{MASKS_IN, PATTERNS_IN, PLACES, ROW, SIZES_IN, WIDTHS_IN};

// At most twelve bytes from a place on, by value, with zeros behind them: a row.
pub fn row(mem: &[u8], at: usize, size: usize) -> [u8; ROW]
    requires { (at + size ≤ length mem.now) × (size ≤ most_data) }
    ensures { result ≡ twelve (take size (drop at mem.now)) }
{
    let mut out = [0u8; ROW];
    out[..size].copy_from_slice(&mem[at..at + size]);
    out
}

// The index of the first empty place, 10 where there is none.
pub fn first_free(part: &[u8]) -> usize
    requires { FilterPart part.now }
    ensures { (flags : ℕ) → result ≡ free ((filters flags).get part.now) }
{
    for i in 0..PLACES {
        if part[i] == 0 {
            return i;
        }
    }
    PLACES
}

// Another filter, or none, at a place: its type, its width, its size and its rows, each in its column.
pub fn put_place(
    part: &mut [u8],
    i: usize,
    kind: u8,
    wide: bool,
    size: u8,
    mask: &[u8],
    pattern: &[u8],
)
    requires { FilterPart part.old × (i < most_places) × (length mask.now ≡ most_data) × (length pattern.now ≡ most_data) }
    ensures { (flags : ℕ) (x : Option Filter) → filter_parts x ≡ (kind, (wide, (size, (mask.now, pattern.now)))) → part.new ≡ (filters flags).put (set ((filters flags).get part.old) i x) }
{
    part[i] = kind;
    part[WIDTHS_IN + i] = wide as u8;
    part[SIZES_IN + i] = size;
    let a = MASKS_IN + i * ROW;
    let b = a + ROW;
    octets::copy(&mut part[a..b], mask);
    let c = PATTERNS_IN + i * ROW;
    let d = c + ROW;
    octets::copy(&mut part[c..d], pattern);
}
