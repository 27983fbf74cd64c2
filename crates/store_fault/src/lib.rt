// Where a bad store is bad: the place of the first number, filter or periodic that no channel of its flags would take.
// A walk gives the place behind what is good, or else the place of what is bad.
#![tactic(auto)]

// Behind a store's version, and its flags in version 2.
fn head(store: &[u8]) -> Result<usize, usize> {
    let version = number::number_at(store, 0).ok_or(0usize)?;
    if version.value == 1 {
        return Ok(version.next);
    }
    if version.value != 2 {
        return Err(0);
    }
    let flags = number::number_at(store, version.next).ok_or(version.next)?;
    Ok(flags.next)
}

// The place after a periodic, none where it would begin past the end of the store.
fn periodic_end(store: &[u8], at: usize, flags: u32) -> Option<usize> {
    if at <= store.len() {
        return store_records::periodic_end(store, at, flags);
    }
    None
}

// Behind the filters, or the periodics, each of which ends where `find` says.
fn entries<F: Fn(usize) -> Option<usize>>(store: &[u8], at: usize, find: F) -> Result<usize, usize>
    requires { F.IsAlwaysCallable find }
{
    let most = places::PLACES as u32;
    let count = store_check::number_within(store, at, 0, most).ok_or(at)?;
    let mut place = count.next;
    let mut last = 0;
    for _ in 0..count.value {
        let number = number::number_at(store, place).ok_or(place)?;
        if (number.value <= last) | (number.value > most) {
            return Err(place);
        }
        place = find(number.next).ok_or(place)?;
        last = number.value;
    }
    Ok(place)
}

// Behind the rate and the loopback.
fn config(store: &[u8], at: usize, rates: &[u32]) -> Result<usize, usize> {
    let rate = number::number_at(store, at).ok_or(at)?;
    if !can::is_rate(rates, rate.value) {
        return Err(at);
    }
    let loopback = store_check::number_within(store, rate.next, 0, 1).ok_or(rate.next)?;
    Ok(loopback.next)
}

// Behind all of a store of these flags.
fn all(store: &[u8], rates: &[u32], flags: u32) -> Result<usize, usize> {
    let filters = head(store)?;
    let periodics = entries(
        store,
        filters,
        |at| store_records::filter_end(store, at, flags),
    )?;
    let rate = entries(store, periodics, |at| periodic_end(store, at, flags))?;
    config(store, rate, rates)
}

// The place at which a bad store of these flags is bad: the first byte too many where all before is good.
pub fn bad_at(store: &[u8], rates: &[u32], flags: u32) -> usize {
    match all(store, rates, flags) {
        Ok(end) => end,
        Err(bad) => bad,
    }
}
