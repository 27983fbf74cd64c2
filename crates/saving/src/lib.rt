// Saving: the store of a channel, written into a lent buffer part by part.
#![tactic(auto)]

ghost use Rattle.std.specs.Prelude.{◌≡◌, List, ℕ, ◌+◌, ◌≤◌, ◌<◌, length};
ghost use Rattle.codes.specs.Code.{code_of, value_of};
ghost use Rattle.machine.specs.Limits.{most_places, most_data, record_size};
ghost use Rattle.machine.specs.Message.{shown};
ghost use Rattle.machine.specs.Store.{slots_bytes, filter_bytes, periodic_bytes};
ghost use Rattle.machine.specs.Channel.{save_setup};
ghost use Rattle.setups.specs.Good.{clean_rec};
ghost use Rattle.layout.specs.Promise.{Opened, gives, call_outcome};
ghost use Rattle.filterbank.specs.Part.{FilterPart};
ghost use Rattle.stores.specs.Periodics.{PeriodicPart};
ghost use Rattle.answers.specs.Put.{Put};
ghost use Rattle.store_sizes.specs.Entries.{filters_of, periodics_of, store_of};
ghost use Rattle.saving.specs.Entry.{entry_at};

use codes::Refusal;
use places::{
    DATA_IN, MASKS_IN, MESSAGES_IN, NUMBER, PATTERNS_IN, PLACES, RECORD, ROW, SIZES_IN, WIDTHS_IN,
};

// The version of a store that is written.
const VERSION: u32 = 2;

// Writes the clean record of a width and of bytes from a place on, and gives the place after it.
fn put_clean(out: &mut [u8], at: usize, wide: bool, bytes: &[u8]) -> usize
    requires { (at + record_size ≤ length out.old) × (length bytes.now ≤ most_data) }
    ensures { Put out.old at (shown (clean_rec wide bytes.now)) result out.new }
{
    let data = at + DATA_IN;
    let end = at + RECORD;
    let tx = can::width_flag(wide);
    let size = bytes.len() as u32;
    records::put_numbers(&mut out[at..data], can::PROTOCOL, 0, tx, 0, size, size);
    records::put_padded(&mut out[data..end], bytes);
    end
}

// Writes the filter of a place: its number, its type, its mask and its pattern; nothing where the place is empty.
fn put_filter(out: &mut [u8], at: usize, part: &[u8], i: usize) -> usize
    requires { FilterPart part.now × (i < most_places) × (at + length (entry_at filter_bytes (filters_of part.now) i) ≤ length out.old) }
    ensures { Put out.old at (entry_at filter_bytes (filters_of part.now) i) result out.new }
{
    let kind = integers::wide(part[i]);
    if kind == 0 {
        return at;
    }
    let wide = 1 == part[WIDTHS_IN + i];
    let size = part[SIZES_IN + i] as usize;
    let mask = MASKS_IN + i * ROW;
    let mask_end = mask + size;
    let pattern = PATTERNS_IN + i * ROW;
    let pattern_end = pattern + size;
    let named = answers::put_number(out, at, i as u32 + 1);
    let typed = answers::put_number(out, named, kind);
    let masked = put_clean(out, typed, wide, &part[mask..mask_end]);
    put_clean(out, masked, wide, &part[pattern..pattern_end])
}

// Writes how many filters there are, and then they.
fn put_filters(out: &mut [u8], at: usize, part: &[u8]) -> usize
    requires { FilterPart part.now × (at + length (slots_bytes filter_bytes (filters_of part.now)) ≤ length out.old) }
    ensures { Put out.old at (slots_bytes filter_bytes (filters_of part.now)) result out.new }
{
    let count = store_sizes::filter_count(part);
    let mut next = answers::put_number(out, at, count);
    for i in 0..PLACES {
        next = put_filter(out, next, part, i);
    }
    next
}

// Writes the periodic of a place: its number, its record and its interval; nothing where the place is empty.
fn put_periodic(out: &mut [u8], at: usize, part: &[u8], i: usize) -> usize
    requires { PeriodicPart part.now × (i < most_places) × (at + length (entry_at periodic_bytes (periodics_of part.now) i) ≤ length out.old) }
    ensures { Put out.old at (entry_at periodic_bytes (periodics_of part.now) i) result out.new }
{
    let interval = integers::word_at(part, i * NUMBER);
    if interval == 0 {
        return at;
    }
    let message = MESSAGES_IN + i * RECORD;
    let message_end = message + RECORD;
    let named = answers::put_number(out, at, i as u32 + 1);
    let end = named + RECORD;
    octets::copy(&mut out[named..end], &part[message..message_end]);
    answers::put_number(out, end, interval)
}

// Writes how many periodics there are, and then they.
fn put_periodics(out: &mut [u8], at: usize, part: &[u8]) -> usize
    requires { PeriodicPart part.now × (at + length (slots_bytes periodic_bytes (periodics_of part.now)) ≤ length out.old) }
    ensures { Put out.old at (slots_bytes periodic_bytes (periodics_of part.now)) result out.new }
{
    let count = store_sizes::periodic_count(part);
    let mut next = answers::put_number(out, at, count);
    for i in 0..PLACES {
        next = put_periodic(out, next, part, i);
    }
    next
}

// Writes the store of an open channel at the start of a buffer, where it fits, and gives its length.
fn put_store(out: &mut [u8], r: &[u8]) -> usize
    requires { Opened r.now × (length (store_of r.now) ≤ length out.old) }
    ensures { Put out.old 0 (store_of r.now) result out.new }
{
    let versioned = answers::put_number(out, 0, VERSION);
    let flagged = answers::put_number(out, versioned, integers::word_at(r, places::FLAGS));
    let filtered = put_filters(out, flagged, &r[places::FILTERS..places::MAPS]);
    let timed = put_periodics(out, filtered, &r[places::PERIODICS..places::WRITTEN]);
    let rated = answers::put_number(out, timed, integers::word_at(r, places::RATE));
    answers::put_number(out, rated, integers::wide(r[places::LOOPBACK]))
}

// Save: the store of an open channel into a buffer, and its length; 0x04 where it doesn't fit.
pub fn save_in(r: &[u8], buffer: &mut [u8]) -> Result<u32, Refusal>
    requires { Opened r.now }
    ensures { (rates : List ℕ) (t : ℕ) → gives (code_of result) (value_of result) buffer.new r.now ≡ call_outcome rates t r.now (save_setup buffer.old) }
{
    if buffer.len() < store_sizes::store_size(r) {
        return Err(Refusal::NullParameter);
    }
    let size = put_store(buffer, r);
    Ok(size as u32)
}
