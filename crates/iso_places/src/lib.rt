// Where everything lies in the region of an ISO 15765 channel, for code: the sizes and offsets of docs/LAYOUT.md and the limits of request P3, each
// said once. That they are the numbers of the definitions is the promise of `numbers`.
#![tactic(auto)]

ghost use Rattle.std.specs.Prelude.{◌≡◌};
ghost use Rattle.iso_places.specs.Named.{named};

use places::NUMBER;

// Two conversations; the most written messages and records to read.
pub const TALKS: usize = 2;

pub const MOST_MESSAGES: usize = 4;

pub const MOST_HEARD: usize = 8;
// A record: its data, an identifier and at most 508 bytes of payload; and the whole.
pub const MOST_PAYLOAD: usize = 508;

pub const DATA: usize = NUMBER + MOST_PAYLOAD;

pub const RECORD: usize = places::DATA_IN + DATA;
// In a transfer, behind its kind.
pub const COUNT_IN: usize = 1;

pub const TIME_IN: usize = COUNT_IN + NUMBER;

pub const LEFT_IN: usize = TIME_IN + NUMBER;

pub const GAP_IN: usize = LEFT_IN + NUMBER;

pub const GO_ON_IN: usize = GAP_IN + NUMBER;

pub const PAYLOAD_IN: usize = GO_ON_IN + 1;

pub const PAYLOAD_SIZE: usize = NUMBER + MOST_PAYLOAD;

pub const TRANSFER_SIZE: usize = PAYLOAD_IN + PAYLOAD_SIZE;
// In a conversation's place, behind its taken mark and its width mark.
pub const PATTERN_IN: usize = 2;

pub const FLOW_IN: usize = PATTERN_IN + NUMBER;

pub const TRANSFER_IN: usize = FLOW_IN + NUMBER;

pub const TALK_SIZE: usize = TRANSFER_IN + TRANSFER_SIZE;

pub const TALKS_SIZE: usize = TALKS * TALK_SIZE;
// Stores: how many, then the records. The flight: the taken mark, what it belongs to, the frame.
pub const MESSAGES_SIZE: usize = 1 + MOST_MESSAGES * RECORD;

pub const FLIGHT_SIZE: usize = 2 + RECORD;

pub const HEARD_SIZE: usize = 1 + MOST_HEARD * RECORD;
// The region of an open channel: the open mark and the configuration as in a raw one, then
pub const TALKS_AT: usize = 1 + places::CONFIG_SIZE;

pub const MESSAGES: usize = TALKS_AT + TALKS_SIZE;

pub const FLIGHT: usize = MESSAGES + MESSAGES_SIZE;

pub const HEARD: usize = FLIGHT + FLIGHT_SIZE;

pub const LOST: usize = HEARD + HEARD_SIZE;

pub const LAST: usize = LOST + 1;

pub const REGION: usize = LAST + 1;

// Every number above, in order: those of the definitions.
pub fn numbers() -> [usize; 29]
    ensures { result ≡ named }
{
    [
        TALKS,
        MOST_MESSAGES,
        MOST_HEARD,
        MOST_PAYLOAD,
        DATA,
        RECORD,
        COUNT_IN,
        TIME_IN,
        LEFT_IN,
        GAP_IN,
        GO_ON_IN,
        PAYLOAD_IN,
        PAYLOAD_SIZE,
        TRANSFER_SIZE,
        PATTERN_IN,
        FLOW_IN,
        TRANSFER_IN,
        TALK_SIZE,
        TALKS_SIZE,
        MESSAGES_SIZE,
        FLIGHT_SIZE,
        HEARD_SIZE,
        TALKS_AT,
        MESSAGES,
        FLIGHT,
        HEARD,
        LOST,
        LAST,
        REGION,
    ]
}
