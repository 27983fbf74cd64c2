// THE CHOICE of what a channel sends next: a pending periodic, else the connection's telegram, else a written record; and the channel that is without it.
#![tactic(auto)]

ghost use Rattle.std.specs.Prelude.{◌≡◌, false, ℕ, ◌≤◌, ◌<◌, T, length, get_or, drop};
ghost use Rattle.machine.specs.Limits.{most_places, most_written, record_size};
ghost use Rattle.layout.specs.Sizes.{written_at, written_size};
ghost use Rattle.layout.specs.Memory.{periodics, region};
ghost use Rattle.layout.specs.Promise.{Opened};
ghost use Rattle.stores.specs.Written.{written};
ghost use Rattle.choosing.specs.Choice.{choice_shown, Choosing, freed};

// Where the oldest record of a written store ends.
const OLDEST_END: usize = 1 + places::RECORD;

// The 36 bytes of the first pending periodic, of place i, else those of the connection's telegram, where there is one, else those of the oldest written record.
pub fn choice<'a>(
    waiting: &'a [u8],
    telegram: &'a [u8],
    store: &'a [u8],
    i: usize,
    there: bool,
) -> &'a [u8]
    requires { Choosing waiting.now telegram.now store.now i there }
    ensures { ((flags : ℕ) → result.now ≡ choice_shown ((periodics flags).get waiting.now) there telegram.now ((written flags).get store.now)) × (length result.now ≡ record_size) }
{
    if i < places::PLACES {
        let at = places::MESSAGES_IN + i * places::RECORD;
        let end = at + places::RECORD;
        return &waiting[at..end];
    }
    if there {
        return &telegram[0..places::RECORD];
    }
    &store[1..OLDEST_END]
}

// The oldest record of a written store goes: the others move to the front, zeros behind them.
fn drop_oldest(store: &mut [u8])
    requires { (length store.old ≡ written_size) × (0 < get_or store.old 0 0) × (get_or store.old 0 0 ≤ most_written) }
    ensures { (flags : ℕ) → T ((written flags).valid store.old) → store.new ≡ (written flags).put (drop 1 ((written flags).get store.old)) }
{
    let held = store[0];
    let end = 1 + places::RECORD * held as usize;
    octets::move_down(&mut store[1..end], places::RECORD);
    store[0] = held - 1;
}

// What went in flight is no longer pending, where it was the periodic of place i, else, where it wasn't the connection's telegram, no longer held.
pub fn free(r: &mut [u8], i: usize, there: bool)
    requires { Opened r.old × (most_places ≤ i → there ≡ false → 0 < get_or r.old written_at 0) }
    ensures { r.new ≡ region.put (freed i there (region.get r.old)) }
{
    if i < places::PLACES {
        pending::calm(&mut r[places::PERIODICS..places::WRITTEN], i);
        return;
    }
    if there {
        return;
    }
    drop_oldest(&mut r[places::WRITTEN..places::FLIGHT]);
}
