// The flight of an ISO 15765 channel after its conversations changed: a frame of a transfer that is over belongs to nothing any more.
#![tactic(auto)]

ghost use Rattle.std.specs.Prelude.{◌≡◌, ℕ, T, length, set};
ghost use Rattle.codec.specs.Code.{slot};
ghost use Rattle.iso.specs.Iso.{ready, airborne_at};
ghost use Rattle.iso_layout.specs.Sizes.{talk_size, iso_flight_size};
ghost use Rattle.iso_layout.specs.Region.{talk_cell, iso_region};
ghost use Rattle.iso_flights.specs.Lain.{Lain, disowned};

use iso_places::{FLIGHT, HEARD, TALK_SIZE, TALKS_AT};

// Where in a region stands what the flight belongs to, and where in the flight.
const OWNER_IN: usize = 1;

const OWNER: usize = FLIGHT + OWNER_IN;

// Has the transfer in a conversation's place a frame in flight?
pub fn aloft(t: &[u8]) -> bool
    requires { length t.now ≡ talk_size }
    ensures { (flags : ℕ) → T ((slot (talk_cell flags)).valid t.now) → result ≡ airborne_at ((slot (talk_cell flags)).get t.now) }
{
    if t[0] == 0 {
        return false;
    }
    let h = talk_head::head_in(t);
    ((h.kind == 2) & !h.waits) | ((h.kind == 3) | (h.kind == 5))
}

// A flight that belongs to nothing.
fn orphan(f: &mut [u8])
    requires { length f.old ≡ iso_flight_size }
    ensures { f.new ≡ set f.old 1 0 }
{
    f[OWNER_IN] = 0;
}

// The flight belongs to nothing where the transfer that it belongs to has no frame in flight.
pub fn disown(r: &mut [u8])
    requires { Lain r.old }
    ensures { (l : Lain r.old) → r.new ≡ iso_region.put (ready (disowned l.channel)) }
{
    let owner = r[OWNER] as usize;
    if owner < 2 {
        return;
    }
    let at = TALKS_AT + (owner - 2) * TALK_SIZE;
    let end = at + TALK_SIZE;
    if aloft(&r[at..end]) {
        return;
    }
    orphan(&mut r[FLIGHT..HEARD]);
}
