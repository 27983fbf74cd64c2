// Are these ten filters, or ten periodics? Place by place, from their columns.
#![tactic(auto)]

ghost use Rattle.std.specs.Prelude.{◌≡◌, ◌<◌, length};
ghost use Rattle.machine.specs.Limits.{most_places};
ghost use Rattle.layout.specs.Sizes.{filters_size, periodics_size};
ghost use Rattle.ten_places.specs.Place.{filter_good, periodic_good, places_size, places_valid, place_good};

use can::takes_width;
use integers::word_at;
use stored_records::cell;
use zeros::{no_record, nothing, twelve_end};

// Filter i of ten: type, width mark, size, and zeros after the size in mask and pattern; or nothing at all.
fn filter(s: &[u8], i: usize, flags: u32) -> bool
    requires { (length s.now ≡ filters_size) × (i < most_places) }
    ensures { result ≡ filter_good flags i s.now }
{
    let width = s[places::WIDTHS_IN + i];
    let n = s[places::SIZES_IN + i] as usize;
    let mask = places::MASKS_IN + i * places::ROW;
    let pattern = places::PATTERNS_IN + i * places::ROW;
    if s[i] == 0 {
        return (width <= 1)
            & (!(1 == width) & (n == 0) & twelve_end(s, mask, 0) & twelve_end(s, pattern, 0));
    }
    if n > places::ROW {
        return false;
    }
    (width <= 1)
        & ((s[i] <= 2)
            & takes_width(flags, 1 == width)
            & ((1 <= n) & (n <= places::ROW))
            & twelve_end(s, mask, n)
            & twelve_end(s, pattern, n))
}

// Periodic i of ten: record, interval, time since the last due time, pending mark; or nothing at all.
fn periodic(s: &[u8], i: usize, flags: u32) -> bool
    requires { (length s.now ≡ periodics_size) × (i < most_places) }
    ensures { result ≡ periodic_good flags i s.now }
{
    let interval = word_at(s, i * places::NUMBER) as u64;
    let phase = word_at(s, places::PHASES_IN + i * places::NUMBER) as u64;
    let pending = s[places::PENDING_IN + i];
    let a = places::MESSAGES_IN + i * places::RECORD;
    if s[a] == 0 {
        return (pending <= 1)
            & no_record(s, a)
            & ((interval == 0) & (phase == 0) & !(1 == pending));
    }
    let e = a + places::RECORD;
    (pending <= 1)
        & cell(&s[a..e], flags, true)
        & ((5 <= interval) & (interval <= 65535) & (phase < 1000 * interval))
}

// Place i of ten, of periodics or of filters.
fn place(s: &[u8], i: usize, flags: u32, timed: bool) -> bool
    requires { (length s.now ≡ places_size timed) × (i < most_places) }
    ensures { result ≡ place_good timed flags i s.now }
{
    if timed {
        return periodic(s, i, flags);
    }
    filter(s, i, flags)
}

// Ten periodics, or ten filters. Where there is none, they are zeros.
pub fn valid(s: &[u8], flags: u32, timed: bool) -> bool
    requires { length s.now ≡ places_size timed }
    ensures { result ≡ places_valid timed flags s.now }
{
    if nothing(s) {
        return true;
    }
    let mut good = true;
    for i in 0..places::PLACES {
        good = good & place(s, i, flags, timed);
    }
    good
}
