// What a conversation of an ISO 15765 channel has to send goes into the flight: a flow frame, a consecutive frame, the first frame of a message.
#![tactic(auto)]

ghost use Rattle.std.specs.Prelude.{◌≡◌, ◌≤◌, ◌<◌, length, get_or};
ghost use Rattle.std.proofs.Math.Option.{none, some};
ghost use Rattle.machine.specs.Message.{Rec};
ghost use Rattle.iso.specs.Limits.{most_talks, most_payload, in_first};
ghost use Rattle.iso.specs.Iso.{Talk, Owner, ready, lowest};
ghost use Rattle.framing.specs.Data.{frame_room};
ghost use Rattle.iso_layout.specs.Sizes.{iso_region_size};
ghost use Rattle.iso_layout.specs.Region.{owner_parts, iso_region};
ghost use Rattle.iso_layout.specs.Promise.{IsoOpened};
ghost use Rattle.iso_flights.specs.Lain.{Lain};
ghost use Rattle.iso_giving.specs.Giving.{channel_in, owner_of, flying, Chose, answers, segments, starts, given_at, Segmented, Startable};

use framing::FRAME;
use iso_places::{FLIGHT, FLOW_IN, HEARD, TALK_SIZE, TALKS_AT};

// Where in a conversation's place its width mark stands; the first byte of an overflow.
const WIDTH_IN: usize = 1;

const OVERFLOW: u8 = 0x32;

// What the frame of the conversation at place k belongs to, by its first byte.
fn owner_of(k: usize, first: u8) -> u8
    requires { k < most_talks }
    ensures { result ≡ owner_of k first }
{
    if first == OVERFLOW { 0 } else { k as u8 + 2 }
}

// A frame of the conversation at place k is in flight.
fn fly(r: &mut [u8], k: usize, bytes: &[u8])
    requires { (length r.old ≡ iso_region_size) × (k < most_talks) × (1 ≤ length bytes.now) × (length bytes.now ≤ frame_room) }
    ensures { (l : Lain r.old) (c : Talk) (w : Owner) → get_or l.channel.talks k none ≡ some c → owner_parts w ≡ owner_of k (get_or bytes.now 0 0) → r.new ≡ iso_region.put (ready (flying l.channel c w bytes.now)) }
{
    let at = TALKS_AT + k * TALK_SIZE;
    let wide = r[at + WIDTH_IN] == 1;
    let id = integers::word_at(r, at + FLOW_IN);
    let owner = owner_of(k, bytes[0]);
    iso_launching::launch(&mut r[FLIGHT..HEARD], owner, wide, id, bytes);
}

// The flow frame that waits at place k, if one does.
fn answer_at(r: &mut [u8], k: usize) -> bool
    requires { IsoOpened r.old × (k < most_talks) }
    ensures { Chose (given_at answers k (channel_in r.old)) result r.old r.new }
{
    let at = TALKS_AT + k * TALK_SIZE;
    let end = at + TALK_SIZE;
    let mut d = [0u8; FRAME];
    let n = talk_giving::answer(&mut r[at..end], &mut d);
    if n == 0 {
        return false;
    }
    fly(r, k, &d[0..n]);
    true
}

// The next frame of the transmission at place k, if its STmin is over.
fn segment_at(r: &mut [u8], k: usize) -> bool
    requires { IsoOpened r.old × (k < most_talks) }
    ensures { Chose (given_at segments k (channel_in r.old)) result r.old r.new }
{
    let at = TALKS_AT + k * TALK_SIZE;
    let end = at + TALK_SIZE;
    let mut d = [0u8; FRAME];
    let n = talk_giving::segment(&mut r[at..end], &mut d);
    if n == 0 {
        return false;
    }
    fly(r, k, &d[0..n]);
    true
}

// The first frame of a segmented message, if the conversation at place k may start it.
fn start_at(r: &mut [u8], k: usize, wide: bool, id: u32, payload: &[u8]) -> bool
    requires { IsoOpened r.old × (k < most_talks) × (in_first ≤ length payload.now) × (length payload.now ≤ most_payload) × Startable (channel_in r.old).config.flags wide id payload.now }
    ensures { (m : Rec) → Segmented (channel_in r.old).config.flags wide id payload.now m → Chose (given_at (starts m) k (channel_in r.old)) result r.old r.new }
{
    let at = TALKS_AT + k * TALK_SIZE;
    let end = at + TALK_SIZE;
    let mut d = [0u8; FRAME];
    let n = talk_starting::start(&mut r[at..end], wide, id, payload, &mut d);
    if n == 0 {
        return false;
    }
    fly(r, k, &d[0..n]);
    true
}

// The flow frame of the lowest-numbered conversation in which one waits.
pub fn answer(r: &mut [u8]) -> bool
    requires { IsoOpened r.old }
    ensures { Chose (lowest answers 0 (channel_in r.old).talks (channel_in r.old).written) result r.old r.new }
{
    if answer_at(r, 0) {
        return true;
    }
    answer_at(r, 1)
}

// The next frame of a transmission, if its STmin is over.
pub fn segment(r: &mut [u8]) -> bool
    requires { IsoOpened r.old }
    ensures { Chose (lowest segments 0 (channel_in r.old).talks (channel_in r.old).written) result r.old r.new }
{
    if segment_at(r, 0) {
        return true;
    }
    segment_at(r, 1)
}

// The first frame of a segmented message, on the lowest-numbered conversation that may start it.
pub fn start(r: &mut [u8], wide: bool, id: u32, payload: &[u8]) -> bool
    requires { IsoOpened r.old × (in_first ≤ length payload.now) × (length payload.now ≤ most_payload) × Startable (channel_in r.old).config.flags wide id payload.now }
    ensures { (m : Rec) → Segmented (channel_in r.old).config.flags wide id payload.now m → Chose (lowest (starts m) 0 (channel_in r.old).talks (channel_in r.old).written) result r.old r.new }
{
    if start_at(r, 0, wide, id, payload) {
        return true;
    }
    start_at(r, 1, wide, id, payload)
}
