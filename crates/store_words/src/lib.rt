// A saved set-up in words, a line for each filter and periodic. It is one that a check has taken; of other bytes come words too,
// which mean nothing.
#![tactic(auto)]

use number::Number;
use places::{DATA_IN, RECORD};
use std::io;
use trace_words::{byte_at, bytes, hex, number, part, text};

// What stands for a number that is not there: 0, up to the end of the store.
fn missing(store: &[u8]) -> Number {
    Number {
        value: 0,
        next: store.len(),
    }
}

// The number at a place.
fn item_at(store: &[u8], at: usize) -> Number {
    number::number_at(store, at).unwrap_or(missing(store))
}

// How many filters or periodics there are, at the place where that is said.
fn count_at(store: &[u8], at: usize) -> Number {
    let most = places::PLACES as u32;
    store_check::number_within(store, at, 0, most).unwrap_or(missing(store))
}

// The flags of a store, and the place where its filters begin. Version 1 has none: they are 0.
fn flags_item(store: &[u8]) -> Number {
    let version = item_at(store, 0);
    if version.value == 1 {
        return Number {
            value: 0,
            next: version.next,
        };
    }
    item_at(store, version.next)
}

// The flags of a store.
pub fn flags_of(store: &[u8]) -> u32 {
    flags_item(store).value
}

// The record at a place, no bytes where it is not all there.
fn record_at(store: &[u8], at: usize) -> &[u8] {
    if at < store.len() {
        if RECORD <= store.len() - at {
            return &store[at..at + RECORD];
        }
    }
    input::first(store, 0)
}

// The place after the record at a place, the end where it is not all there.
fn after_record(store: &[u8], at: usize) -> usize {
    if at < store.len() {
        if RECORD <= store.len() - at {
            return at + RECORD;
        }
    }
    store.len()
}

// The data of a clean record, from one of its bytes on.
fn data(record: &[u8], from: usize) -> &[u8] {
    let size = byte_at(record, places::SIZE_IN) as usize;
    part(record, from, DATA_IN + size)
}

// The width of a clean record: the second byte of its TxFlags.
fn width(out: &impl Print, record: &[u8]) -> io::Result<()> {
    if byte_at(record, places::TX_FLAGS_IN + 1) == 1 {
        text(out, b", wide")
    } else {
        text(out, b", narrow")
    }
}

// The identifier of four bytes, the highest first.
fn identifier(f: &[u8]) -> u32 {
    let high = byte_at(f, 0) as u32 * 256 + byte_at(f, 1) as u32;
    high * 65536 + byte_at(f, 2) as u32 * 256 + byte_at(f, 3) as u32
}

// What a filter does with the frames that it matches.
fn kind(out: &impl Print, n: u32) -> io::Result<()> {
    if n == 1 {
        text(out, b": pass")
    } else {
        text(out, b": block")
    }
}

// The place after the filter at a place: behind its number, its type, its mask and its pattern.
fn filter_end(store: &[u8], at: usize) -> usize {
    let does = item_at(store, item_at(store, at).next);
    after_record(store, after_record(store, does.next))
}

// The line of the filter at a place; the place after it.
fn filter(out: &impl Print, store: &[u8], at: usize) -> io::Result<usize> {
    let n = item_at(store, at);
    let does = item_at(store, n.next);
    let mask = record_at(store, does.next);
    let pattern = record_at(store, after_record(store, does.next));
    number(out, b"\n  ", n.value)?;
    kind(out, does.value)?;
    width(out, mask)?;
    text(out, b", mask")?;
    bytes(out, data(mask, DATA_IN))?;
    text(out, b", pattern")?;
    bytes(out, data(pattern, DATA_IN))?;
    Ok(filter_end(store, at))
}

// The interval of the periodic at a place, and the place after it: behind its number and its record.
fn interval_at(store: &[u8], at: usize) -> Number {
    item_at(store, after_record(store, item_at(store, at).next))
}

// The line of the periodic at a place; the place after it.
fn periodic(out: &impl Print, store: &[u8], at: usize) -> io::Result<usize> {
    let n = item_at(store, at);
    let interval = interval_at(store, at);
    let record = record_at(store, n.next);
    number(out, b"\n  ", n.value)?;
    number(out, b": every ", interval.value)?;
    text(out, b" ms")?;
    width(out, record)?;
    hex(out, b", identifier 0x", identifier(data(record, DATA_IN)))?;
    text(out, b", data")?;
    bytes(out, data(record, DATA_IN + 4))?;
    Ok(interval.next)
}

// How many of something, on a line of its own.
fn many(out: &impl Print, n: u32, name: &[u8]) -> io::Result<()> {
    number(out, b"\n", n)?;
    text(out, name)?;
    if n != 1 {
        text(out, b"s")?;
    }
    Ok(())
}

// The place after the filters, or the periodics, at a place; `end` finds where one ends.
fn entries_end<F: Fn(usize) -> usize>(store: &[u8], at: usize, end: F) -> usize
    requires { F.IsAlwaysCallable end }
{
    let count = count_at(store, at);
    let mut place = count.next;
    for _ in 0..count.value {
        place = end(place);
    }
    place
}

// The filters, or the periodics, at a place: how many, and each on its line, which `line` tells; the place after them.
fn entries<F: Fn(usize) -> io::Result<usize>>(
    out: &impl Print,
    store: &[u8],
    at: usize,
    name: &[u8],
    line: F,
) -> io::Result<usize>
    requires { F.IsAlwaysCallable line }
{
    let count = count_at(store, at);
    many(out, count.value, name)?;
    let mut place = count.next;
    for _ in 0..count.value {
        place = line(place)?;
    }
    Ok(place)
}

// The first line: version, flags, and the rate and loopback, which stand behind the filters and periodics.
fn head(out: &impl Print, store: &[u8]) -> io::Result<()> {
    let flags = flags_item(store);
    let periodics = entries_end(store, flags.next, |at| filter_end(store, at));
    let config = entries_end(store, periodics, |at| interval_at(store, at).next);
    let rate = item_at(store, config);
    number(out, b"version ", item_at(store, 0).value)?;
    trace_words::flags(out, flags.value)?;
    number(out, b", ", rate.value)?;
    number(out, b" bit/s, loopback ", item_at(store, rate.next).value)
}

// A store: its first line, its filters and its periodics. The end of the last line is left to the caller.
pub fn words(out: &impl Print, store: &[u8]) -> io::Result<()> {
    head(out, store)?;
    let filters = flags_item(store).next;
    let periodics = entries(out, store, filters, b" filter", |at| filter(out, store, at))?;
    entries(
        out,
        store,
        periodics,
        b" periodic",
        |at| periodic(out, store, at),
    )?;
    Ok(())
}
