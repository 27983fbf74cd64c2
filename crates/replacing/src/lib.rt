// The parts of a channel's region replaced by those of a store that is known to be good; and where the store's body stands.
#![tactic(auto)]

ghost use Rattle.std.specs.Prelude.{map, ◌≡◌, length};
ghost use Rattle.machine.specs.Store.{slots_in};
ghost use Rattle.machine.specs.Channel.{filter_in, periodic_in, starts_anew};
ghost use Rattle.layout.specs.Sizes.{mapped_size, periodics_size};
ghost use Rattle.layout.specs.Memory.{mapped, periodics};
ghost use Rattle.layout.specs.Promise.{Opened};
ghost use Rattle.store_filling.specs.Filling.{There, Gives};
ghost use Rattle.replacing.specs.Body.{BodyThere, Fitting, Replaced};

use places::{FILTERS, FILTERS_SIZE, LOOPBACK, PERIODICS, RATE, WRITTEN};

// Where the body of a store stands: behind its first number, in version 2 behind the flags.
fn body_there(store: &[u8]) -> usize
    ensures { BodyThere store.now result }
{
    let version = store_filling::number_there(store, 0);
    if version.value == 1 {
        return version.next;
    }
    store_filling::number_there(store, version.next).next
}

// The filters of a store instead of those there, and the maps that follow from them.
fn put_filters(part: &mut [u8], store: &[u8], at: usize) -> usize
    requires { There (λ flags. slots_in (filter_in flags)) store.now at × (length part.old ≡ mapped_size) }
    ensures { Gives (λ flags. slots_in (filter_in flags)) store.now at result part.new (λ flags fs. (mapped flags).put fs) }
{
    let count = store_filling::number_there(store, at);
    octets::zero(&mut part[0..FILTERS_SIZE]);
    let next = store_filling::fill_filters(
        &mut part[0..FILTERS_SIZE],
        store,
        count.next,
        count.value,
    );
    maps::remake(part);
    next
}

// The periodics of a store instead of those there, each pending at once.
fn put_periodics(part: &mut [u8], store: &[u8], at: usize) -> usize
    requires { There (λ flags. slots_in (periodic_in flags)) store.now at × (length part.old ≡ periodics_size) }
    ensures { Gives (λ flags. slots_in (periodic_in flags)) store.now at result part.new (λ flags ps. (periodics flags).put (map starts_anew ps)) }
{
    let count = store_filling::number_there(store, at);
    octets::zero(part);
    store_filling::fill_periodics(part, store, count.next, count.value)
}

// All that a store has, instead of what an open channel's region has of it: filters, periodics, loopback and rate.
pub fn replace(r: &mut [u8], store: &[u8])
    requires { Opened r.old × Fitting r.old store.now }
    ensures { Replaced r.old store.now r.new }
{
    let filters = body_there(store);
    let periodics = put_filters(&mut r[FILTERS..PERIODICS], store, filters);
    let config = put_periodics(&mut r[PERIODICS..WRITTEN], store, periodics);
    let rate = store_filling::number_there(store, config);
    let loopback = store_filling::number_there(store, rate.next);
    r[LOOPBACK] = loopback.value as u8;
    integers::put_word(&mut r[RATE..LOOPBACK], rate.value);
}
