// The check of a whole saved set-up, which changes nothing: would a channel of given flags take it?
#![tactic(auto)]

ghost use Rattle.std.specs.Prelude.{ℕ, ◌≡◌, ◌≤◌, length};
ghost use Rattle.std.proofs.Math.Option.{Option};
ghost use Rattle.codec.specs.Plain.{within};
ghost use Rattle.number.specs.Reads.{number as number_in, only};
ghost use Rattle.machine.specs.Store.{slots_in, read_whole};
ghost use Rattle.machine.specs.Channel.{store_in};
ghost use Rattle.setups.specs.Saved.{takes_store};
ghost use Rattle.store_records.specs.Places.{place_of, after_of};
ghost use Rattle.store_check.specs.Walk.{found_of, flags_in, config_in, ending, Finds, ends_at};

use number::Number;

// The most filters, and the most periodics.
const MOST: u32 = places::PLACES as u32;

// The number at a place, if it is one of those from one to another.
pub fn number_within(store: &[u8], at: usize, least: u32, most: u32) -> Option<Number>
    ensures { found_of result ≡ only (within least most) number_in store.now at }
{
    let number = number::number_at(store, at)?;
    if !filtercheck::between(least, most, number.value) {
        return None;
    }
    Some(number)
}

// Where the filters begin in a store of these flags: behind the version, and behind the flags in version 2.
pub fn body_at(store: &[u8], flags: u32) -> Option<usize>
    ensures { place_of result ≡ after_of (flags_in flags store.now 0) }
{
    let version = number::number_at(store, 0)?;
    if version.value == 1 {
        if flags != 0 {
            return None;
        }
        return Some(version.next);
    }
    if version.value != 2 {
        return None;
    }
    let own = number::number_at(store, version.next)?;
    if own.value != flags {
        return None;
    }
    Some(own.next)
}

// The place after the filters, or the periodics: how many, then each with its number, in order. `find` finds where one ends.
fn slots_end<F: Fn(usize) -> Option<usize>>(store: &[u8], at: usize, find: F) -> Option<usize>
    requires { (at : ℕ) → at ≤ length store.now → F.pre find at }
    ensures { (ends : ℕ → Option ℕ) → Finds ends (F.post find) → place_of result ≡ after_of (slots_in (ending ends) store.now at) }
{
    let count = number_within(store, at, 0, MOST)?;
    let mut place = count.next;
    let mut last = 0;
    for _ in 0..count.value {
        let number = number_within(store, place, last + 1, MOST)?;
        place = find(number.next)?;
        last = number.value;
    }
    Some(place)
}

// The place after the rate, one of those lent, and the loopback, 0 or 1.
fn config_end(store: &[u8], at: usize, rates: &[u32]) -> Option<usize>
    ensures { place_of result ≡ after_of (config_in rates.now store.now at) }
{
    let rate = number::number_at(store, at)?;
    if !can::is_rate(rates, rate.value) {
        return None;
    }
    let loopback = number_within(store, rate.next, 0, 1)?;
    Some(loopback.next)
}

// The place after a store that a channel of these flags would take if it ended there.
fn store_end(store: &[u8], rates: &[u32], flags: u32) -> Option<usize>
    ensures { ends_at (length store.now) (place_of result) ≡ takes_store flags (read_whole (store_in rates.now) store.now) }
{
    let filters = body_at(store, flags)?;
    let periodics = slots_end(
        store,
        filters,
        |at| store_records::filter_end(store, at, flags),
    )?;
    let config = slots_end(
        store,
        periodics,
        |at| store_records::periodic_end(store, at, flags),
    )?;
    config_end(store, config, rates)
}

// Would a channel of these flags take a store, from its start to its end?
pub fn good(store: &[u8], rates: &[u32], flags: u32) -> bool
    ensures { result ≡ takes_store flags (read_whole (store_in rates.now) store.now) }
{
    let Some(end) = store_end(store, rates, flags) else {
        return false;
    };
    end == store.len()
}
