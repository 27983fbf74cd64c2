// Where everything lies in the device memory, for code: the sizes and offsets of docs/LAYOUT.md and the limits of the scope, each said once.
// That they are the numbers of the definitions is the promise of `numbers`.
#![tactic(auto)]

ghost use Rattle.std.specs.Prelude.{◌≡◌};
ghost use Rattle.places.specs.Named.{named};

// Four lines, and a channel a line; ten places for filters and ten for periodics; the most written records and records to read.
pub const LINES: usize = 4;

pub const PLACES: usize = 10;

pub const MOST_WRITTEN: usize = 16;

pub const MOST_TO_READ: usize = 32;
// A number's bytes, a record's, and its data's: an identifier and at most eight of a frame.
pub const NUMBER: usize = 4;

pub const RECORD: usize = 36;

pub const ROW: usize = 12;
// In a record, behind its protocol.
pub const RX_STATUS_IN: usize = 4;

pub const TX_FLAGS_IN: usize = RX_STATUS_IN + NUMBER;

pub const TIMESTAMP_IN: usize = TX_FLAGS_IN + NUMBER;

pub const SIZE_IN: usize = TIMESTAMP_IN + NUMBER;

pub const EXTRA_INDEX_IN: usize = SIZE_IN + NUMBER;

pub const DATA_IN: usize = EXTRA_INDEX_IN + NUMBER;
// In the ten filters, behind their types.
pub const WIDTHS_IN: usize = PLACES;

pub const SIZES_IN: usize = WIDTHS_IN + PLACES;

pub const MASKS_IN: usize = SIZES_IN + PLACES;

pub const ROWS_SIZE: usize = PLACES * ROW;

pub const PATTERNS_IN: usize = MASKS_IN + ROWS_SIZE;

pub const FILTERS_SIZE: usize = PATTERNS_IN + ROWS_SIZE;
// The maps of pass and of block that follow from them, and the filters with both.
pub const MAP_SIZE: usize = 256;

pub const MAPS_SIZE: usize = MAP_SIZE + MAP_SIZE;

pub const MAPPED_SIZE: usize = FILTERS_SIZE + MAPS_SIZE;
// In the ten periodics, behind their intervals.
pub const PHASES_IN: usize = PLACES * NUMBER;

pub const PENDING_IN: usize = PHASES_IN + PLACES * NUMBER;

pub const MESSAGES_IN: usize = PENDING_IN + PLACES;

pub const PERIODICS_SIZE: usize = MESSAGES_IN + PLACES * RECORD;
// Stores: how many, then the records; the receiving part ends in the lost mark.
pub const WRITTEN_SIZE: usize = 1 + MOST_WRITTEN * RECORD;

pub const FLIGHT_SIZE: usize = 1 + RECORD;

pub const QUEUE_SIZE: usize = 1 + MOST_TO_READ * RECORD;

pub const SENDING_SIZE: usize = PERIODICS_SIZE + WRITTEN_SIZE + FLIGHT_SIZE;

pub const RECEIVING_SIZE: usize = QUEUE_SIZE + 1;

pub const CONFIG_SIZE: usize = NUMBER + NUMBER + 1;
// The TP2.0 connection, whose parts are named in `link_places`.
pub const LINK_SIZE: usize = 1091;
// In the region of an open channel, behind the open mark.
pub const FLAGS: usize = 1;

pub const RATE: usize = FLAGS + NUMBER;

pub const LOOPBACK: usize = RATE + NUMBER;

pub const FILTERS: usize = FLAGS + CONFIG_SIZE;

pub const MAPS: usize = FILTERS + FILTERS_SIZE;

pub const PERIODICS: usize = MAPS + MAPS_SIZE;

pub const WRITTEN: usize = PERIODICS + PERIODICS_SIZE;

pub const FLIGHT: usize = WRITTEN + WRITTEN_SIZE;

pub const RECEIVING: usize = FLIGHT + FLIGHT_SIZE;

pub const LOST: usize = RECEIVING + QUEUE_SIZE;

pub const RECEIVING_END: usize = RECEIVING + RECEIVING_SIZE;

pub const LAST: usize = RECEIVING_END;

pub const LINK: usize = LAST + 1;

pub const REGION: usize = LINK + LINK_SIZE;
// The memory begins with the clock; behind it lie the regions of the four raw channels.
pub const REGIONS: usize = NUMBER;

pub const REGIONS_SIZE: usize = LINES * REGION;

// Every number above, in order: those of the definitions.
pub fn numbers() -> [usize; 48]
    ensures { result ≡ named }
{
    [
        LINES,
        PLACES,
        MOST_WRITTEN,
        MOST_TO_READ,
        NUMBER,
        RECORD,
        ROW,
        RX_STATUS_IN,
        TX_FLAGS_IN,
        TIMESTAMP_IN,
        SIZE_IN,
        EXTRA_INDEX_IN,
        DATA_IN,
        WIDTHS_IN,
        SIZES_IN,
        MASKS_IN,
        ROWS_SIZE,
        PATTERNS_IN,
        FILTERS_SIZE,
        MAP_SIZE,
        MAPS_SIZE,
        MAPPED_SIZE,
        PHASES_IN,
        PENDING_IN,
        MESSAGES_IN,
        PERIODICS_SIZE,
        WRITTEN_SIZE,
        FLIGHT_SIZE,
        QUEUE_SIZE,
        SENDING_SIZE,
        RECEIVING_SIZE,
        CONFIG_SIZE,
        LINK_SIZE,
        FLAGS,
        RATE,
        LOOPBACK,
        FILTERS,
        MAPS,
        PERIODICS,
        WRITTEN,
        FLIGHT,
        RECEIVING,
        LOST,
        RECEIVING_END,
        LAST,
        LINK,
        REGION,
        REGIONS_SIZE,
    ]
}
