// The sizes of recordings, their records and their answers, each said once.
#![tactic(auto)]

ghost use Rattle.std.specs.Prelude.{◌≡◌};
ghost use Rattle.recording_sizes.specs.Sizes.{on_iso, record_on};

// The most bytes of a recording.
pub const LONGEST: usize = 32768;

// A record's bytes, on a raw CAN channel and on an ISO 15765 channel.
pub const RECORD: usize = places::RECORD;

pub const ISO_RECORD: usize = iso_places::RECORD;

// The most of an n: records of a read or a write, bytes of a frame.
pub const MOST: u32 = 64;

// The most bytes of as many records.
pub const RECORDS: usize = 64 * ISO_RECORD;

// The most bytes that the answer to one event takes: the code, the count and the records of a read.
pub const EVENT_ROOM: usize = 2 + RECORDS;

// The number that stands for a bad event.
pub const BAD_EVENT: u32 = 255;

// The first and the last channel number of ISO 15765.
const FIRST_ISO: u32 = places::LINES as u32 + 1;

const LAST_ISO: u32 = box_places::CHANNELS as u32;

// Is it the number of an ISO 15765 channel, open or not?
pub fn on_iso(channel: u32) -> bool
    ensures { result ≡ on_iso channel }
{
    (FIRST_ISO <= channel) & (channel <= LAST_ISO)
}

// The bytes of a record in an event that names this channel, and in its answer.
pub fn record_on(channel: u32) -> usize
    ensures { result ≡ record_on channel }
{
    if on_iso(channel) {
        return ISO_RECORD;
    }
    RECORD
}
