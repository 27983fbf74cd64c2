// The oldest written message of an ISO 15765 channel, if it may start: as one single frame, or with its first frame on a conversation.
#![tactic(auto)]

ghost use Rattle.std.specs.Prelude.{◌≡◌, true, ◌≤◌, ◌<◌, length, take};
ghost use Rattle.iso.specs.Limits.{most_payload, in_single};
ghost use Rattle.iso.specs.Iso.{starting};
ghost use Rattle.iso_layout.specs.Promise.{IsoOpened};
ghost use Rattle.iso_giving.specs.Giving.{channel_in, Chose};
ghost use Rattle.iso_sending.specs.Starting.{HeldIn, Reads, OldestIs, Calm};

use framing::FRAME;
use iso_places::{FLIGHT, HEARD, MESSAGES, MOST_PAYLOAD};
use places::NUMBER;

// Where in the written messages, behind their count, the numbers and the bytes of the oldest begin: its identifier, then its payload.
const OLDEST: usize = 1;

const TX: usize = OLDEST + places::TX_FLAGS_IN;

const SIZE: usize = OLDEST + places::SIZE_IN;

const ID: usize = OLDEST + places::DATA_IN;

const BYTES: usize = ID + NUMBER;

// The most payload bytes of a single frame; the mark of a flight that belongs to a single-frame message.
const IN_SINGLE: usize = 7;

const MESSAGE: u8 = 1;

// The width of a message, its identifier, and how many bytes its payload has.
#[derive(Drop)]
struct Read {
    wide: bool,
    id: u32,
    size: usize,
}

// The oldest of the written messages, its payload to the front of a buffer.
fn oldest(s: &[u8], buffer: &mut [u8]) -> Read
    requires { HeldIn s.now × (length buffer.old ≡ most_payload) }
    ensures { ((h : HeldIn s.now) → Reads h.message result.wide result.id (take result.size buffer.new)) × (1 ≤ result.size) × (result.size ≤ most_payload) }
{
    let size = integers::word_at(s, SIZE) as usize - NUMBER;
    octets::copy(&mut buffer[0..size], &s[BYTES..BYTES + size]);
    let wide = integers::word_at(s, TX) / 0x100 % 2 == 1;
    let id = integers::id_at(s, ID);
    Read { wide, id, size }
}

// The oldest message goes as one single frame.
fn single(r: &mut [u8], wide: bool, id: u32, payload: &[u8])
    requires { IsoOpened r.old × OldestIs (channel_in r.old) wide id payload.now × (length payload.now ≤ in_single) }
    ensures { Chose (starting (channel_in r.old).written (channel_in r.old).talks) true r.old r.new }
{
    let mut d = [0u8; FRAME];
    let n = framing::single(&mut d, payload);
    iso_launching::drop_oldest(&mut r[MESSAGES..FLIGHT]);
    iso_launching::launch(&mut r[FLIGHT..HEARD], MESSAGE, wide, id, &d[0..n]);
}

// The first frame of the oldest message goes, where a conversation may start it.
fn segmented(r: &mut [u8], wide: bool, id: u32, payload: &[u8]) -> bool
    requires { IsoOpened r.old × OldestIs (channel_in r.old) wide id payload.now × (in_single < length payload.now) × (length payload.now ≤ most_payload) × Calm (channel_in r.old) }
    ensures { Chose (starting (channel_in r.old).written (channel_in r.old).talks) result r.old r.new }
{
    if iso_giving::start(r, wide, id, payload) {
        iso_launching::drop_oldest(&mut r[MESSAGES..FLIGHT]);
        return true;
    }
    false
}

// The oldest written message starts, if it may.
pub fn start(r: &mut [u8]) -> bool
    requires { IsoOpened r.old × Calm (channel_in r.old) }
    ensures { Chose (starting (channel_in r.old).written (channel_in r.old).talks) result r.old r.new }
{
    if r[MESSAGES] == 0 {
        return false;
    }
    let mut buffer = [0u8; MOST_PAYLOAD];
    let m = oldest(&r[MESSAGES..FLIGHT], &mut buffer);
    let size = m.size;
    if size <= IN_SINGLE {
        single(r, m.wide, m.id, &buffer[0..size]);
        return true;
    }
    segmented(r, m.wide, m.id, &buffer[0..size])
}
