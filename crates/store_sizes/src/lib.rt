// The length of the store of a channel, worked out from the parts of its region, and how many entries it has.
#![tactic(auto)]

ghost use Rattle.std.specs.Prelude.{ℕ, ◌≡◌, ◌<◌, length, get_or};
ghost use Rattle.std.proofs.Math.Option.{none};
ghost use Rattle.machine.specs.Limits.{most_places};
ghost use Rattle.machine.specs.Store.{periodic_bytes};
ghost use Rattle.layout.specs.Promise.{Opened};
ghost use Rattle.filterbank.specs.Part.{FilterPart};
ghost use Rattle.stores.specs.Periodics.{PeriodicPart};
ghost use Rattle.store_sizes.specs.Entries.{Small, Sums, entry_of, entries_from, taken_from, filters_of, periodics_of, store_of};

use places::{NUMBER, PLACES, RECORD};

// The bytes of an entry: a filter's number, type, mask and pattern; a periodic's number and record, without its interval.
const FILTER_SIZE: usize = 2 + RECORD + RECORD;

const PERIODIC_SIZE: usize = 1 + RECORD;

// The bytes of a store besides its entries, its flags and its rate: the version, two counts and the loopback mark, a byte each.
const OTHERS: usize = 4;

// What the ten places come to together, each of them what `of` finds for it, at most 100.
fn sum<F: Fn(usize) -> usize>(of: F) -> usize
    requires { (i : ℕ) → i < most_places → F.pre of i × Small (F.post of i) }
    ensures { Sums (F.post of) result }
{
    let mut sum = 0;
    for i in 0..PLACES {
        sum += of(i);
    }
    sum
}

// How many filters a channel has.
pub fn filter_count(part: &[u8]) -> u32
    requires { FilterPart part.now }
    ensures { result ≡ taken_from 0 (filters_of part.now) }
{
    sum(|i| (part[i] != 0) as usize) as u32
}

// How many periodics it has.
pub fn periodic_count(part: &[u8]) -> u32
    requires { PeriodicPart part.now }
    ensures { result ≡ taken_from 0 (periodics_of part.now) }
{
    sum(|i| (integers::word_at(part, i * NUMBER) != 0) as usize) as u32
}

// How many bytes the periodic of a place takes; none where it is empty.
fn periodic_size(part: &[u8], i: usize) -> usize
    requires { PeriodicPart part.now × (i < most_places) }
    ensures { result ≡ length (entry_of periodic_bytes i (get_or (periodics_of part.now) i none)) }
{
    let interval = integers::word_at(part, i * NUMBER);
    if interval == 0 {
        return 0;
    }
    PERIODIC_SIZE + answers::number_size(interval)
}

// How many bytes the periodics take.
fn periodics_size(part: &[u8]) -> usize
    requires { PeriodicPart part.now }
    ensures { result ≡ length (entries_from periodic_bytes 0 (periodics_of part.now)) }
{
    sum(|i| periodic_size(part, i))
}

// How many bytes the store of an open channel takes.
pub fn store_size(r: &[u8]) -> usize
    requires { Opened r.now }
    ensures { result ≡ length (store_of r.now) }
{
    let count = filter_count(&r[places::FILTERS..places::MAPS]) as usize;
    let periodics = periodics_size(&r[places::PERIODICS..places::WRITTEN]);
    let flags = answers::number_size(integers::word_at(r, places::FLAGS));
    let rate = answers::number_size(integers::word_at(r, places::RATE));
    OTHERS + flags + FILTER_SIZE * count + periodics + rate
}
