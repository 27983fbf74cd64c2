// A channel's filters: how one is started and stopped.
#![tactic(auto)]

ghost use Rattle.std.specs.Prelude.{◌≡◌, List, [], ℕ, ◌<◌, set};
ghost use Rattle.codes.specs.Code.{code_of, value_of};
ghost use Rattle.std.proofs.Math.Option.{some};
ghost use Rattle.machine.specs.Limits.{most_places};
ghost use Rattle.machine.specs.Channel.{filter_of, start_filter, stop_filter};
ghost use Rattle.layout.specs.Memory.{filters};
ghost use Rattle.layout.specs.Promise.{Opened, gives, call_outcome};
ghost use Rattle.filterbank.specs.Part.{FilterPart};
ghost use Rattle.filtercheck.specs.Checked.{Checked};

use codes::Refusal;
use places::{DATA_IN, FILTERS, FLAGS, MAPS, PERIODICS, PLACES, ROW, SIZE_IN, TX_FLAGS_IN};

// The largest number of a filter.
const MOST_NUMBER: u32 = PLACES as u32;

// A filter made of two records that passed the checks, at a place.
pub fn put_filter(part: &mut [u8], i: usize, kind: u32, mask: &[u8], pattern: &[u8])
    requires { FilterPart part.old × (i < most_places) × Checked kind mask.now pattern.now }
    ensures { (flags : ℕ) → part.new ≡ (filters flags).put (set ((filters flags).get part.old) i (some (filter_of kind mask.now pattern.now))) }
{
    let size = integers::word_at(mask, SIZE_IN);
    let wide = integers::word_at(mask, TX_FLAGS_IN) / 0x100 % 2 == 1;
    let mask_row = filterbank::row(mask, DATA_IN, size as usize);
    let pattern_row = filterbank::row(pattern, DATA_IN, size as usize);
    filterbank::put_place(
        part,
        i,
        kind as u8,
        wide,
        size as u8,
        &mask_row,
        &pattern_row,
    );
}

// Start a filter on an open channel's region: its number is the smallest free one, and the maps follow.
pub fn start_filter(r: &mut [u8], kind: u32, mask: &[u8], pattern: &[u8]) -> Result<u32, Refusal>
    requires { Opened r.old }
    ensures { (rates : List ℕ) (t : ℕ) → gives (code_of result) (value_of result) [] r.new ≡ call_outcome rates t r.old (start_filter kind mask.now pattern.now) }
{
    let place = filterbank::first_free(&r[FILTERS..MAPS]);
    filtercheck::start_code(integers::word_at(r, FLAGS), kind, mask, pattern, place)?;
    put_filter(&mut r[FILTERS..MAPS], place, kind, mask, pattern);
    maps::remake(&mut r[FILTERS..PERIODICS]);
    Ok(place as u32 + 1)
}

// Stop the filter of a number: its place is empty again, and the maps follow.
pub fn stop_filter(r: &mut [u8], number: u32) -> Result<(), Refusal>
    requires { Opened r.old }
    ensures { (rates : List ℕ) (t : ℕ) → gives (code_of result) 0 [] r.new ≡ call_outcome rates t r.old (stop_filter number) }
{
    if !filtercheck::between(1, MOST_NUMBER, number) {
        return Err(Refusal::InvalidFilterId);
    }
    let i = number as usize - 1;
    if r[FILTERS + i] == 0 {
        return Err(Refusal::InvalidFilterId);
    }
    let none = [0u8; ROW];
    filterbank::put_place(&mut r[FILTERS..MAPS], i, 0, false, 0, &none, &none);
    maps::remake(&mut r[FILTERS..PERIODICS]);
    Ok(())
}
