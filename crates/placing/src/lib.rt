// A periodic put at a place of a channel, and a place emptied.
#![tactic(auto)]

ghost use Rattle.std.specs.Prelude.{◌≡◌, ℕ, ◌<◌, length, set};
ghost use Rattle.std.proofs.Math.Option.{none, some};
ghost use Rattle.machine.specs.Limits.{most_places};
ghost use Rattle.machine.specs.Filter.{free};
ghost use Rattle.machine.specs.Channel.{periodic_of};
ghost use Rattle.layout.specs.Sizes.{periodics_size};
ghost use Rattle.layout.specs.Memory.{periodics};
ghost use Rattle.stores.specs.Periodics.{PeriodicPart};
ghost use Rattle.placing.specs.Placed.{Sendable, timed};

// The index of the first empty place, 10 where there is none.
pub fn first_free(part: &[u8]) -> usize
    requires { PeriodicPart part.now }
    ensures { (flags : ℕ) → result ≡ free ((periodics flags).get part.now) }
{
    for i in 0..places::PLACES {
        if integers::word_at(part, i * places::NUMBER) == 0 {
            return i;
        }
    }
    places::PLACES
}

// The timer of a place: its interval, no time passed, and its pending mark.
fn put_timer(part: &mut [u8], i: usize, interval: u32, pending: u8)
    requires { (length part.old ≡ periodics_size) × (i < most_places) }
    ensures { part.new ≡ timed i interval pending part.old }
{
    let a = i * places::NUMBER;
    let b = a + places::NUMBER;
    integers::put_word(&mut part[a..b], interval);
    let c = places::PHASES_IN + a;
    let d = c + places::NUMBER;
    integers::put_word(&mut part[c..d], 0);
    part[places::PENDING_IN + i] = pending;
}

// A new periodic at a place, pending at once.
pub fn start_at(part: &mut [u8], i: usize, message: &[u8], interval: u32)
    requires { Sendable part.old message.now × (i < most_places) }
    ensures { (flags : ℕ) → part.new ≡ (periodics flags).put (set ((periodics flags).get part.old) i (some (periodic_of message.now interval))) }
{
    put_timer(part, i, interval, 1);
    let a = places::MESSAGES_IN + i * places::RECORD;
    let b = a + places::RECORD;
    message::put_clean(&mut part[a..b], message);
}

// A place emptied: zeros in its four columns.
pub fn stop_at(part: &mut [u8], i: usize)
    requires { PeriodicPart part.old × (i < most_places) }
    ensures { (flags : ℕ) → part.new ≡ (periodics flags).put (set ((periodics flags).get part.old) i none) }
{
    put_timer(part, i, 0, 0);
    let a = places::MESSAGES_IN + i * places::RECORD;
    let b = a + places::RECORD;
    octets::zero(&mut part[a..b]);
}
