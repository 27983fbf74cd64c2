// The timers of a channel, moved on in time: those of its periodics and of its connection.
#![tactic(auto)]

ghost use Rattle.std.specs.Prelude.{◌≡◌, map, ℕ, ◌<◌, ◌≤◌, T, length};
ghost use Rattle.machine.specs.Limits.{most_places, most_advance};
ghost use Rattle.machine.specs.Channel.{later_slot, on_advance};
ghost use Rattle.layout.specs.Sizes.{region_size};
ghost use Rattle.layout.specs.Memory.{periodics, region};
ghost use Rattle.stores.specs.Periodics.{PeriodicPart, changed};
ghost use Rattle.timers.specs.Timed.{periodics_on};

// Where in a region the intervals end.
const PHASES: usize = places::PERIODICS + places::PHASES_IN;

// One place, some microseconds later: pending once the time since its last due time reaches the interval, which then counts on from the due time.
fn later_at(part: &mut [u8], i: usize, us: u32)
    requires { PeriodicPart part.old × (i < most_places) × (us ≤ most_advance) }
    ensures { (flags : ℕ) → part.new ≡ (periodics flags).put (changed (later_slot us) i ((periodics flags).get part.old)) }
{
    let a = i * places::NUMBER;
    let interval = integers::word_at(part, a);
    if interval == 0 {
        return;
    }
    let b = places::PHASES_IN + a;
    let e = b + places::NUMBER;
    let period = 1000 * interval;
    let phase = integers::word_at(part, b) + us;
    if phase < period {
        integers::put_word(&mut part[b..e], phase);
        return;
    }
    integers::put_word(&mut part[b..e], phase % period);
    part[places::PENDING_IN + i] = 1;
}

// The ten places, some microseconds later.
fn later_places(part: &mut [u8], us: u32)
    requires { PeriodicPart part.old × (us ≤ most_advance) }
    ensures { (flags : ℕ) → part.new ≡ (periodics flags).put (map (later_slot us) ((periodics flags).get part.old)) }
{
    for i in 0..places::PLACES {
        later_at(part, i, us);
    }
}

// The periodics of a channel's region, open or closed, some microseconds later. Where every interval is 0 there is nothing to do.
fn later_periodics(r: &mut [u8], us: u32)
    requires { (length r.old ≡ region_size) × T (region.valid r.old) × (us ≤ most_advance) }
    ensures { r.new ≡ region.put (periodics_on us (region.get r.old)) }
{
    if octets::all_zero(&r[places::PERIODICS..PHASES]) {
        return;
    }
    later_places(&mut r[places::PERIODICS..places::WRITTEN], us);
}

// A channel's region, open or closed, some microseconds later: its connection and its periodics.
pub fn later(r: &mut [u8], us: u32)
    requires { (length r.old ≡ region_size) × T (region.valid r.old) × (us ≤ most_advance) }
    ensures { r.new ≡ region.put (on_advance us (region.get r.old)) }
{
    if r[0] == 0 {
        return;
    }
    link_times::later(&mut r[places::LINK..places::REGION], us);
    later_periodics(r, us);
}
