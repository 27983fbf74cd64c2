// The parts of a saved set-up: where a clean record, a filter and a periodic end, or that they are bad.
#![tactic(auto)]

ghost use Rattle.std.specs.Prelude.{◌≡◌, ◌≤◌, length};
ghost use Rattle.machine.specs.Limits.{record_size};
ghost use Rattle.machine.specs.Store.{is_clean, clean_in};
ghost use Rattle.machine.specs.Channel.{filter_in, periodic_in};
ghost use Rattle.store_records.specs.Places.{place_of, after_of};

use places::RECORD;

// The most data bytes of a record, and an interval in milliseconds.
const MOST_DATA: u32 = places::ROW as u32;

const LEAST_INTERVAL: u32 = 5;

const MOST_INTERVAL: u32 = 65535;

// Is a record the clean one as which it would be stored?
fn is_clean(m: &[u8]) -> bool
    requires { length m.now ≡ record_size }
    ensures { result ≡ is_clean m.now }
{
    if integers::word_at(m, places::SIZE_IN) > MOST_DATA {
        return false;
    }
    let mut cell = [0u8; RECORD];
    message::put_clean(&mut cell, m);
    map_bands::same(m, &cell)
}

// The place after a clean record, none where the bytes there are none.
pub fn clean_end(store: &[u8], at: usize) -> Option<usize>
    requires { at ≤ length store.now }
    ensures { place_of result ≡ after_of (clean_in store.now at) }
{
    if store.len() - at < RECORD {
        return None;
    }
    let next = at + RECORD;
    if !is_clean(&store[at..next]) {
        return None;
    }
    Some(next)
}

// The place after a filter that a channel just connected with these flags would start, else none.
pub fn filter_end(store: &[u8], at: usize, flags: u32) -> Option<usize>
    ensures { place_of result ≡ after_of (filter_in flags store.now at) }
{
    let kind = number::number_at(store, at)?;
    let mask = kind.next;
    let pattern = clean_end(store, mask)?;
    let next = clean_end(store, pattern)?;
    filtercheck::start_code(
        flags,
        kind.value,
        &store[mask..pattern],
        &store[pattern..next],
        0,
    )
    .ok()?;
    Some(next)
}

// The place after a periodic that a channel just connected with these flags would start, else none; a listener starts none.
pub fn periodic_end(store: &[u8], at: usize, flags: u32) -> Option<usize>
    requires { at ≤ length store.now }
    ensures { place_of result ≡ after_of (periodic_in flags store.now at) }
{
    let end = clean_end(store, at)?;
    let interval = number::number_at(store, end)?;
    if !filtercheck::between(LEAST_INTERVAL, MOST_INTERVAL, interval.value) {
        return None;
    }
    message::message_code(&store[at..end], flags).ok()?;
    if can::listens(flags) {
        return None;
    }
    Some(interval.next)
}
