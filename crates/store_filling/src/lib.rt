// The second walk over a store that is known to be good: its entries are written into empty places, and nothing is tested.
#![tactic(auto)]

ghost use Rattle.std.specs.Prelude.{map, ◌≡◌, ◌<◌, set};
ghost use Rattle.std.proofs.Math.Option.{some};
ghost use Rattle.codec.specs.Plain.{zeros};
ghost use Rattle.machine.specs.Limits.{most_places};
ghost use Rattle.machine.specs.Filter.{none_yet};
ghost use Rattle.machine.specs.Store.{each_in};
ghost use Rattle.machine.specs.Channel.{filter_in, periodic_in, starts_anew};
ghost use Rattle.layout.specs.Sizes.{filters_size, periodics_size};
ghost use Rattle.layout.specs.Memory.{filters, periodics};
ghost use Rattle.setups.specs.Saved.{filled};
ghost use Rattle.store_filling.specs.Filling.{NumberThere, There, Room, Gives};

use number::Number;
use places::RECORD;

// The number that stands at a place, and the place after it; 0 and the same place where there is none.
pub fn number_there(store: &[u8], at: usize) -> Number
    ensures { NumberThere store.now at result.value result.next }
{
    number::number_at(store, at).unwrap_or(Number { value: 0, next: at })
}

// A filter of a store at a place: its type and its two records.
fn fill_filter(part: &mut [u8], i: usize, store: &[u8], at: usize) -> usize
    requires { Room filter_in filters part.old store.now at × (i < most_places) }
    ensures { Gives filter_in store.now at result part.new (λ flags f. (filters flags).put (set ((filters flags).get part.old) i (some f))) }
{
    let kind = number_there(store, at);
    let a = kind.next;
    let b = a + RECORD;
    let c = b + RECORD;
    filters::put_filter(part, i, kind.value, &store[a..b], &store[b..c]);
    c
}

// A periodic of a store at a place, pending at once: its record and its interval.
fn fill_periodic(part: &mut [u8], i: usize, store: &[u8], at: usize) -> usize
    requires { Room periodic_in periodics part.old store.now at × (i < most_places) }
    ensures { Gives periodic_in store.now at result part.new (λ flags p. (periodics flags).put (set ((periodics flags).get part.old) i (starts_anew (some p)))) }
{
    let b = at + RECORD;
    let interval = number_there(store, b);
    placing::start_at(part, i, &store[at..b], interval.value);
    interval.next
}

// The n filters of a store from a place on, each at the place of its number, and the place after them.
pub fn fill_filters(part: &mut [u8], store: &[u8], at: usize, n: u32) -> usize
    requires { There (λ flags. each_in (filter_in flags) 0 n) store.now at × (part.old ≡ zeros filters_size) }
    ensures { Gives (λ flags. each_in (filter_in flags) 0 n) store.now at result part.new (λ flags es. (filters flags).put (filled none_yet es)) }
{
    let mut next = at;
    for _ in 0..n {
        let number = number_there(store, next);
        next = fill_filter(part, number.value as usize - 1, store, number.next);
    }
    next
}

// The n periodics of a store from a place on, in the same way.
pub fn fill_periodics(part: &mut [u8], store: &[u8], at: usize, n: u32) -> usize
    requires { There (λ flags. each_in (periodic_in flags) 0 n) store.now at × (part.old ≡ zeros periodics_size) }
    ensures { Gives (λ flags. each_in (periodic_in flags) 0 n) store.now at result part.new (λ flags es. (periodics flags).put (map starts_anew (filled none_yet es))) }
{
    let mut next = at;
    for _ in 0..n {
        let number = number_there(store, next);
        next = fill_periodic(part, number.value as usize - 1, store, number.next);
    }
    next
}
