// Is this the region of an ISO 15765 channel? Each function decides what one part of the layout calls valid.
#![tactic(auto)]

ghost use Rattle.std.specs.Prelude.{◌≡◌, ◌+◌, length, drop};
ghost use Rattle.codec.specs.Plain.{member};
ghost use Rattle.codec.specs.Code.{slot};
ghost use Rattle.iso.specs.Iso.{iso_codes};
ghost use Rattle.iso_layout.specs.Sizes.{iso_flight_size, heard_size, iso_region_size};
ghost use Rattle.iso_layout.specs.Region.{flight_code, heard_part, ready_part, iso_region};

use can::listens;
use codes::Refusal;
use integers::{wide, word_at};
use iso_stored::{frame, store};
use iso_talks::{linked, talks};
use octets::all_zero;
use validity::configuration;

// What a call on an open ISO 15765 channel can give.
const KEPT: [u32; 18] = [
    codes::STATUS_NOERROR,
    Refusal::NotSupported as u32,
    Refusal::NullParameter as u32,
    Refusal::InvalidIoctlValue as u32,
    Refusal::Failed as u32,
    Refusal::Timeout as u32,
    Refusal::InvalidMsg as u32,
    Refusal::ExceededLimit as u32,
    Refusal::InvalidMsgId as u32,
    Refusal::InvalidIoctlId as u32,
    Refusal::BufferEmpty as u32,
    Refusal::BufferFull as u32,
    Refusal::BufferOverflow as u32,
    Refusal::ChannelInUse as u32,
    Refusal::MsgProtocolId as u32,
    Refusal::InvalidFilterId as u32,
    Refusal::NoFlowControl as u32,
    Refusal::NotUnique as u32,
];

// In the flight, behind its taken mark: what it belongs to, and the frame, of which the size and the byte that tells how many follow it.
const OWNER: usize = 1;

const FRAME: usize = 2;

const SIZE: usize = FRAME + places::SIZE_IN;

const TOLD: usize = FRAME + places::DATA_IN + places::NUMBER;
// The bytes of a single frame: its identifier and the byte that tells, then one to seven.
const BEFORE: u32 = places::NUMBER as u32 + 1;

const LEAST_SINGLE: u32 = BEFORE + 1;

const MOST_SINGLE: u32 = BEFORE + 7;
// The second conversation's place, in the region.
const SECOND: usize = iso_places::TALKS_AT + iso_places::TALK_SIZE;

// A flight, behind its taken mark: what it belongs to, and the frame; that of a message tells how many bytes follow.
fn flown(f: &[u8], flags: u32) -> bool
    requires { length f.now ≡ iso_flight_size }
    ensures { result ≡ (flight_code flags).valid (drop 1 f.now) }
{
    if !frame(&f[FRAME..iso_places::FLIGHT_SIZE], flags) {
        return false;
    }
    let owner = f[OWNER];
    let size = word_at(f, SIZE);
    let single = ((LEAST_SINGLE <= size) & (size <= MOST_SINGLE))
        & (wide(f[TOLD]) == size - BEFORE);
    (owner <= 3) & (!(owner == 1) | single)
}

// The flight's place: zeros, or a flight.
fn flight(f: &[u8], flags: u32) -> bool
    requires { length f.now ≡ iso_flight_size }
    ensures { result ≡ (slot (flight_code flags)).valid f.now }
{
    let k = f[0];
    if k == 0 {
        return all_zero(&f[1..iso_places::FLIGHT_SIZE]);
    }
    if k == 1 {
        return flown(f, flags);
    }
    false
}

// At most 8 records to read, and the lost mark.
fn heard(s: &[u8], flags: u32) -> bool
    requires { length s.now ≡ heard_size + 1 }
    ensures { result ≡ (heard_part flags).valid s.now }
{
    store(
        &s[0..iso_places::HEARD_SIZE],
        iso_places::MOST_HEARD,
        flags,
        false,
    ) & (s[iso_places::HEARD_SIZE] <= 1)
}

// Is this 0x00 or a code that a call on an open channel can give?
fn is_kept(code: u32) -> bool
    ensures { result ≡ member code iso_codes }
{
    KEPT.contains(&code)
}

// The region of an open channel, behind its open mark: each part, then what they say of each other; it is no listener.
fn opened(r: &[u8]) -> bool
    requires { length r.now ≡ iso_region_size }
    ensures { result ≡ ready_part.valid (drop 1 r.now) }
{
    let flags = word_at(r, places::FLAGS);
    (configuration(&r[places::FLAGS..iso_places::TALKS_AT])
        & (talks(&r[iso_places::TALKS_AT..iso_places::MESSAGES], flags)
            & (store(
                &r[iso_places::MESSAGES..iso_places::FLIGHT],
                iso_places::MOST_MESSAGES,
                flags,
                true,
            ) & (flight(&r[iso_places::FLIGHT..iso_places::HEARD], flags)
                & (heard(&r[iso_places::HEARD..iso_places::LAST], flags)
                    & is_kept(wide(r[iso_places::LAST])))))))
        & linked(
            &r[iso_places::TALKS_AT..SECOND],
            &r[SECOND..iso_places::MESSAGES],
            &r[iso_places::FLIGHT..iso_places::HEARD],
        )
        & !listens(flags)
}

// The region of an ISO 15765 channel: closed and zeros, or open.
pub fn iso_region(r: &[u8]) -> bool
    requires { length r.now ≡ iso_region_size }
    ensures { result ≡ iso_region.valid r.now }
{
    let k = r[0];
    if k == 0 {
        return all_zero(&r[1..iso_places::REGION]);
    }
    if k == 1 {
        return opened(r);
    }
    false
}
