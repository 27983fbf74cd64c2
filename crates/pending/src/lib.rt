// Which of a channel's periodics is sent next: the first that is pending, and that it no longer is.
#![tactic(auto)]

ghost use Rattle.std.specs.Prelude.{◌≡◌, ℕ, ◌<◌};
ghost use Rattle.machine.specs.Limits.{most_places};
ghost use Rattle.layout.specs.Memory.{periodics};
ghost use Rattle.stores.specs.Periodics.{PeriodicPart, changed};
ghost use Rattle.pending.specs.Pending.{first_pending, calm_slot};

// The index of the first place with a pending periodic, 10 where there is none.
pub fn first_pending(part: &[u8]) -> usize
    requires { PeriodicPart part.now }
    ensures { (flags : ℕ) → result ≡ first_pending ((periodics flags).get part.now) }
{
    for i in 0..places::PLACES {
        if part[places::PENDING_IN + i] == 1 {
            return i;
        }
    }
    places::PLACES
}

// The periodic of a place is no longer pending.
pub fn calm(part: &mut [u8], i: usize)
    requires { PeriodicPart part.old × (i < most_places) }
    ensures { (flags : ℕ) → part.new ≡ (periodics flags).put (changed calm_slot i ((periodics flags).get part.old)) }
{
    part[places::PENDING_IN + i] = 0;
}
