// Where everything lies in the bytes of a TP2.0 connection, for code: the sizes and offsets of docs/LAYOUT.md and the limits of request P5, each said
// once. That they are the numbers of the definitions is the promise of `numbers`.
#![tactic(auto)]

ghost use Rattle.std.specs.Prelude.{◌≡◌};
ghost use Rattle.link_places.specs.Named.{named};

use places::NUMBER;

// The most bytes of a message.
pub const MOST_BYTES: usize = 512;
// A number; a byte that says which, with a number behind it; at most 512 bytes: how many, then they.
pub const WHICH: usize = 1 + NUMBER;

pub const TEXT: usize = NUMBER + MOST_BYTES;

// What was asked for: own identifier, RX-ID, destination, application, block size, T1, T3.
pub const RX_ID_IN: usize = NUMBER;

pub const DESTINATION_IN: usize = RX_ID_IN + NUMBER;

pub const APPLICATION_IN: usize = DESTINATION_IN + 1;

pub const BLOCK_SIZE_IN: usize = APPLICATION_IN + 1;

pub const T1_IN: usize = BLOCK_SIZE_IN + 1;

pub const T3_IN: usize = T1_IN + 1;

pub const ASKED_SIZE: usize = T3_IN + 1;

// An opening telegram: its repeats, then whether it waits, flies or T_E runs.
pub const TRIAL_IN: usize = 1;

pub const TRIALS_SIZE: usize = TRIAL_IN + WHICH;

// The connection test: an acknowledge waits, a test waits, tests unanswered, what is left of T_CTa.
pub const TESTS_IN: usize = 1;

pub const UNANSWERED_IN: usize = TESTS_IN + 1;

pub const LEFT_IN: usize = UNANSWERED_IN + 1;

pub const CARE_SIZE: usize = LEFT_IN + NUMBER;

// A block: telegrams taken, repeats on T1, asked again, the bytes left of the message.
pub const REPEATS_IN: usize = 1;

pub const AGAIN_IN: usize = REPEATS_IN + 1;

pub const REST_IN: usize = AGAIN_IN + 1;

pub const BLOCK_BYTES: usize = REST_IN + TEXT;

// What is sent: left of T_Wait, SN; then the message: which, left of T1, its block.
pub const SN_IN: usize = NUMBER;

pub const OUT_IN: usize = SN_IN + 1;

pub const BLOCK_IN: usize = WHICH;

pub const OUT_SIZE: usize = BLOCK_IN + BLOCK_BYTES;

pub const TALK_SIZE: usize = OUT_IN + OUT_SIZE;

// What is received: the SN expected, the acknowledge that waits, the complete mark, the bytes.
pub const ACK_IN: usize = 1;

pub const COMPLETE_IN: usize = ACK_IN + 1;

pub const BYTES_IN: usize = COMPLETE_IN + 1;

pub const HEAR_SIZE: usize = BYTES_IN + TEXT;

// A standing connection: block size agreed, the partner's T3, the line, the test, what is sent, what is received.
pub const PACE_IN: usize = 1;

pub const WIRE_IN: usize = PACE_IN + 1;

pub const CARE_IN: usize = WIRE_IN + WHICH;

pub const TALK_IN: usize = CARE_IN + CARE_SIZE;

pub const HEAR_IN: usize = TALK_IN + TALK_SIZE;

pub const STANDING_SIZE: usize = HEAR_IN + HEAR_SIZE;

// The connection: its state, then.
pub const ASKED_AT: usize = 1;

pub const TX_ID_AT: usize = ASKED_AT + ASKED_SIZE;

pub const TRIALS_AT: usize = TX_ID_AT + NUMBER;

pub const EXIT_AT: usize = TRIALS_AT + TRIALS_SIZE;

pub const STANDING_AT: usize = EXIT_AT + WHICH;

pub const WIRE_AT: usize = STANDING_AT + WIRE_IN;

pub const CARE_AT: usize = STANDING_AT + CARE_IN;

pub const TALK_AT: usize = STANDING_AT + TALK_IN;

pub const OUT_AT: usize = TALK_AT + OUT_IN;

pub const HEAR_AT: usize = STANDING_AT + HEAR_IN;

pub const LINK: usize = STANDING_AT + STANDING_SIZE;

// Every number above, in order: those of the definitions.
pub fn numbers() -> [usize; 46]
    ensures { result ≡ named }
{
    [
        MOST_BYTES,
        WHICH,
        TEXT,
        RX_ID_IN,
        DESTINATION_IN,
        APPLICATION_IN,
        BLOCK_SIZE_IN,
        T1_IN,
        T3_IN,
        ASKED_SIZE,
        TRIAL_IN,
        TRIALS_SIZE,
        TESTS_IN,
        UNANSWERED_IN,
        LEFT_IN,
        CARE_SIZE,
        REPEATS_IN,
        AGAIN_IN,
        REST_IN,
        BLOCK_BYTES,
        SN_IN,
        OUT_IN,
        BLOCK_IN,
        OUT_SIZE,
        TALK_SIZE,
        ACK_IN,
        COMPLETE_IN,
        BYTES_IN,
        HEAR_SIZE,
        PACE_IN,
        WIRE_IN,
        CARE_IN,
        TALK_IN,
        HEAR_IN,
        STANDING_SIZE,
        ASKED_AT,
        TX_ID_AT,
        TRIALS_AT,
        EXIT_AT,
        STANDING_AT,
        WIRE_AT,
        CARE_AT,
        TALK_AT,
        OUT_AT,
        HEAR_AT,
        LINK,
    ]
}
