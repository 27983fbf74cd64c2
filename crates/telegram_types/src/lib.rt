// What callers, reader and writer hand each other: telegrams and answers as declared types.
#![tactic(auto)]

// The kinds of telegrams as numbers stand in traces and cross to C: document 001's bytes with the bits for fields at zero.
pub const DATA: u8 = 0x00;

pub const ACKNOWLEDGE: u8 = 0x90;

pub const CONNECTION: u8 = 0xA0;

pub const CONNECTION_ACKNOWLEDGE: u8 = 0xA1;

pub const TEST: u8 = 0xA3;

pub const BREAK: u8 = 0xA4;

pub const DISCONNECT: u8 = 0xA8;

pub const SET_UP: u8 = 0xC0;

pub const POSITIVE: u8 = 0xD0;

// An opening telegram. The five bytes of a negative reply stand beside it.
#[derive(Clone, Copy)]
pub enum Opening {
    SetUp {
        destination: u8,
        rx_id: u16,
        application: u8,
    },
    Positive {
        destination: u8,
        tx_id: u16,
        rx_id: u16,
        application: u8,
    },
    Negative {
        destination: u8,
        kind: u8,
    },
}

// A telegram on a channel. The bytes of data stand beside it.
#[derive(Clone, Copy)]
pub enum OnChannel {
    Data {
        asks: bool,
        last: bool,
        sn: u8,
    },
    Acknowledge {
        ready: bool,
        sn: u8,
    },
    Connection {
        ack: bool,
        block_size: u8,
        t1: u8,
        t2: u8,
        t3: u8,
        t4: u8,
    },
    Test,
    Break,
    Disconnect,
}

// A telegram of either sort: only an opening one carries its identifier.
#[derive(Clone, Copy)]
pub enum Telegram {
    Opening(u32, Opening),
    Channel(OnChannel),
}

// The reader's answer: the telegram, and what it carries, the first `len` bytes of the payload. No telegram is the refusal 0x0A.
#[derive(Clone, Copy)]
pub struct Answer {
    pub telegram: Telegram,
    pub payload: [u8; 7],
    pub len: usize,
}

// A telegram's kind, by the byte that document 001 gives it with its fields at zero, and its fields in the order of the definitions.
#[derive(Clone, Copy)]
pub struct Numbers {
    pub kind: u8,
    pub fields: [u32; 5],
}

// A telegram in numbers for a trace, and what it carries.
#[derive(Clone, Copy)]
pub struct Named {
    pub kind: u8,
    pub fields: [u32; 5],
    pub payload: [u8; 7],
    pub len: usize,
}
