// The timers of an ISO 15765 channel's conversations, moved on in time.
#![tactic(auto)]

ghost use Rattle.std.specs.Prelude.{◌≡◌, ℕ, ◌≤◌, T, length};
ghost use Rattle.machine.specs.Limits.{most_advance};
ghost use Rattle.iso.specs.Iso.{turn_each, later_transfer, on_iso_advance};
ghost use Rattle.iso_layout.specs.Sizes.{talks_size, iso_region_size};
ghost use Rattle.iso_layout.specs.Region.{talks_code, iso_region};

use iso_places::{MESSAGES, TALK_SIZE, TALKS_AT, TALKS_SIZE, TRANSFER_IN};

// Where in a region stand the kinds of the two conversations' transfers.
const FIRST: usize = TALKS_AT + TRANSFER_IN;

const OTHER: usize = FIRST + TALK_SIZE;

// Both conversations, some microseconds later.
fn later_talks(ts: &mut [u8], us: u32)
    requires { length ts.old ≡ talks_size }
    ensures { (flags : ℕ) → T ((talks_code flags).valid ts.old) → ts.new ≡ (talks_code flags).put (turn_each (λ c. later_transfer us c.transfer) ((talks_code flags).get ts.old)) }
{
    talk_times::later_in(&mut ts[0..TALK_SIZE], us);
    talk_times::later_in(&mut ts[TALK_SIZE..TALKS_SIZE], us);
}

// A channel's region, open or closed, some microseconds later. Where neither conversation receives or transmits there is nothing to do.
pub fn later(r: &mut [u8], us: u32)
    requires { (length r.old ≡ iso_region_size) × T (iso_region.valid r.old) × (us ≤ most_advance) }
    ensures { r.new ≡ iso_region.put (on_iso_advance us (iso_region.get r.old)) }
{
    if r[0] == 0 {
        return;
    }
    if (r[FIRST] < 2) & (r[OTHER] < 2) {
        return;
    }
    later_talks(&mut r[TALKS_AT..MESSAGES], us);
    iso_flights::disown(r);
}
