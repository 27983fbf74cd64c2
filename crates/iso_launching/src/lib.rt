// What a frame that is taken does to the stores of an ISO 15765 channel: it goes into the flight, and the message that it starts is held no longer.
#![tactic(auto)]

ghost use Rattle.std.specs.Prelude.{◌≡◌, ℕ, ◌≤◌, ◌<◌, T, length, get_or, drop};
ghost use Rattle.iso.specs.Limits.{most_payload, most_messages};
ghost use Rattle.iso.specs.Iso.{Owner, framed};
ghost use Rattle.iso_layout.specs.Sizes.{messages_size, iso_flight_size};
ghost use Rattle.iso_layout.specs.Region.{owner_parts};
ghost use Rattle.iso_launching.specs.Launch.{messages, flown};

use iso_places::{FLIGHT_SIZE, RECORD};

// Where in the flight stands what it belongs to, and where its frame begins.
const OWNER_IN: usize = 1;

const FRAME_IN: usize = 2;

// A frame is in flight.
pub fn launch(f: &mut [u8], owner: u8, wide: bool, id: u32, bytes: &[u8])
    requires { (length f.old ≡ iso_flight_size) × (length bytes.now ≤ most_payload) }
    ensures { (flags : ℕ) (w : Owner) → owner_parts w ≡ owner → f.new ≡ flown flags (framed wide id bytes.now) w }
{
    iso_records::put_framed(&mut f[FRAME_IN..FLIGHT_SIZE], wide, id, bytes);
    f[0] = 1;
    f[OWNER_IN] = owner;
}

// The oldest of the written messages goes: the others move to the front, zeros behind them.
pub fn drop_oldest(s: &mut [u8])
    requires { (length s.old ≡ messages_size) × (0 < get_or s.old 0 0) × (get_or s.old 0 0 ≤ most_messages) }
    ensures { (flags : ℕ) → T ((messages flags).valid s.old) → s.new ≡ (messages flags).put (drop 1 ((messages flags).get s.old)) }
{
    let held = s[0];
    let end = 1 + held as usize * RECORD;
    octets::move_down(&mut s[1..end], RECORD);
    s[0] = held - 1;
}
