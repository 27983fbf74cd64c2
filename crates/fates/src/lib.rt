// What becomes of a good bus frame on an open channel: the place of the number that the shift report counts it in.
#![tactic(auto)]

ghost use Rattle.std.specs.Prelude.{◌≡◌, true, false, ◌++◌, ℕ, ◌≤◌, length, take, drop};
ghost use Rattle.machine.specs.Limits.{most_bytes};
ghost use Rattle.machine.specs.Message.{id_bytes};
ghost use Rattle.machine.specs.Filter.{hits};
ghost use Rattle.layout.specs.Memory.{filters, open_part};
ghost use Rattle.layout.specs.Promise.{Opened};
ghost use Rattle.filterbank.specs.Part.{FilterPart};
ghost use Rattle.fates.specs.Fates.{fate_by, fate_of};

use places::{FILTERS, FILTERS_SIZE, MASKS_IN, PATTERNS_IN, ROW};

// Where the filters end in a region.
const FILTERS_END: usize = FILTERS + FILTERS_SIZE;

// By the filters: no pass filter matches the first `len` bytes of a row, or a block filter does too, or none.
fn by_filters(part: &[u8], wide: bool, frame: &[u8; ROW], len: usize) -> usize
    requires { FilterPart part.now × (len ≤ length frame.now) }
    ensures { (flags : ℕ) → result ≡ fate_by (hits false ((filters flags).get part.now) wide (take len frame.now)) (hits true ((filters flags).get part.now) wide (take len frame.now)) }
{
    let end = filterwalk::end_of(&part[0..MASKS_IN]);
    let masks = verdict::rows(part, MASKS_IN);
    let patterns = verdict::rows(part, PATTERNS_IN);
    if !filterwalk::hits(
        &part[0..MASKS_IN],
        &masks,
        &patterns,
        filterwalk::PASS,
        wide,
        frame,
        len,
        end,
    ) {
        return shift_places::UNMATCHED;
    }
    if filterwalk::hits(
        &part[0..MASKS_IN],
        &masks,
        &patterns,
        filterwalk::BLOCK,
        wide,
        frame,
        len,
        end,
    ) {
        return shift_places::BLOCKED;
    }
    shift_places::PASSED
}

// By the width that the connection takes, then by the filters.
pub fn fate(r: &[u8], wide: bool, id: u32, bytes: &[u8]) -> usize
    requires { Opened r.now × (length bytes.now ≤ most_bytes) }
    ensures { result ≡ fate_of (open_part.get (drop 1 r.now)) wide (id_bytes id ++ bytes.now) }
{
    if !can::takes_width(integers::word_at(r, places::FLAGS), wide) {
        return shift_places::WIDTH;
    }
    let mut frame = [0u8; ROW];
    records::put_frame(&mut frame, id, bytes);
    let len = places::NUMBER + bytes.len();
    by_filters(&r[FILTERS..FILTERS_END], wide, &frame, len)
}
