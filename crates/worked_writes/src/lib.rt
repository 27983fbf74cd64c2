// Worked telegrams as values, on a channel and opening ones, and a line for what the writer makes of each.
#![tactic(auto)]

use codes::{Refusal, code_of};
use std::io;
use telegram_words::{code, show_all};
use tp20::{OnChannel, Opening, Telegram};

// Writes a telegram into the first n bytes of the buffer, or into all where there are fewer.
fn into(telegram: Telegram, carried: &[u8], buf: &mut [u8], n: usize) -> Result<usize, Refusal> {
    if n < buf.len() {
        return tp20::write(telegram, carried, &mut buf[0..n]);
    }
    tp20::write(telegram, carried, buf)
}

// Writes a telegram into the first n of nine bytes, and prints all nine.
pub fn write(
    out: &impl Print,
    label: &[u8],
    telegram: Telegram,
    carried: &[u8],
    n: usize,
) -> io::Result<()> {
    let mut buf = [0xEEu8; 9];
    let written = into(telegram, carried, &mut buf, n);
    out.write_all(b"write ")?;
    out.write_all(label)?;
    print!(out; " into {n}")?;
    code(out, code_of(written))?;
    let len = written.unwrap_or(0);
    print!(out; " {len}")?;
    show_all(out, &buf)
}

// Data with the bytes that they carry.
fn data(
    out: &impl Print,
    label: &[u8],
    asks: bool,
    last: bool,
    sn: u8,
    carried: &[u8],
    n: usize,
) -> io::Result<()> {
    write(
        out,
        label,
        Telegram::Channel(OnChannel::Data { asks, last, sn }),
        carried,
        n,
    )
}

// An acknowledge.
fn acknowledge(out: &impl Print, label: &[u8], ready: bool, sn: u8) -> io::Result<()> {
    write(
        out,
        label,
        Telegram::Channel(OnChannel::Acknowledge { ready, sn }),
        b"",
        8,
    )
}

// A connection telegram of ours, with T1 100 ms and T3 5 ms.
fn connection(out: &impl Print, label: &[u8], ack: bool, block_size: u8) -> io::Result<()> {
    write(
        out,
        label,
        Telegram::Channel(own_telegrams::connection(ack, block_size, 0x8A, 0x32)),
        b"",
        8,
    )
}

// A module's connection acknowledge, with T1 100 ms, T3 5 ms and its own T2 and T4.
fn from_module(out: &impl Print, label: &[u8], t2: u8, t4: u8) -> io::Result<()> {
    write(
        out,
        label,
        Telegram::Channel(OnChannel::Connection {
            ack: true,
            block_size: 15,
            t1: 0x8A,
            t2,
            t3: 0x32,
            t4,
        }),
        b"",
        8,
    )
}

// Telegrams written on a channel; the bytes beside a disconnect are no part of it.
pub fn writes_on_channel(out: &impl Print) -> io::Result<()> {
    write(out, b"test", Telegram::Channel(OnChannel::Test), b"", 8)?;
    write(out, b"test", Telegram::Channel(OnChannel::Test), b"", 7)?;
    write(out, b"break", Telegram::Channel(OnChannel::Break), b"", 9)?;
    write(
        out,
        b"disconnect, bytes beside it,",
        Telegram::Channel(OnChannel::Disconnect),
        b"99",
        8,
    )?;
    data(
        out,
        b"data, 7 bytes,",
        true,
        true,
        15,
        b"\x01\x02\x03\x04\x05\x06\x07",
        9,
    )?;
    data(out, b"data, no bytes,", false, false, 0, b"", 8)?;
    data(
        out,
        b"data, 8 bytes,",
        false,
        false,
        0,
        b"\x01\x02\x03\x04\x05\x06\x07\x08",
        9,
    )?;
    data(out, b"data, SN 16,", true, true, 16, b"", 8)?;
    data(out, b"data, SN 16,", true, true, 16, b"", 7)?;
    acknowledge(out, b"acknowledge, not ready,", false, 3)?;
    acknowledge(out, b"acknowledge, SN 16,", true, 16)?;
    connection(out, b"connection acknowledge", true, 1)?;
    connection(out, b"connection set-up, block size 0,", false, 0)?;
    connection(out, b"connection set-up, block size 16,", false, 16)?;
    connection(out, b"connection set-up", false, 15)?;
    from_module(out, b"connection acknowledge, T2 01, T4 02,", 0x01, 0x02)?;
    from_module(out, b"connection acknowledge, T2 00, T4 fe,", 0x00, 0xFE)
}

// A set-up for diagnostics.
fn set_up(
    out: &impl Print,
    label: &[u8],
    identifier: u32,
    destination: u8,
    rx_id: u16,
) -> io::Result<()> {
    write(
        out,
        label,
        Telegram::Opening(
            identifier,
            Opening::SetUp {
                destination,
                rx_id,
                application: 0x01,
            },
        ),
        b"",
        8,
    )
}

// A positive reply.
fn positive(out: &impl Print, label: &[u8], application: u8) -> io::Result<()> {
    write(
        out,
        label,
        Telegram::Opening(
            0x201,
            Opening::Positive {
                destination: 0x00,
                tx_id: 0x300,
                rx_id: 0x740,
                application,
            },
        ),
        b"",
        8,
    )
}

// A negative reply with the bytes that it carries.
fn refusal(out: &impl Print, label: &[u8], kind: u8, carried: &[u8]) -> io::Result<()> {
    write(
        out,
        label,
        Telegram::Opening(
            0x201,
            Opening::Negative {
                destination: 0x00,
                kind,
            },
        ),
        carried,
        8,
    )
}

// Opening telegrams written.
pub fn writes_of_openings(out: &impl Print) -> io::Result<()> {
    set_up(out, b"set-up", 0x200, 0x01, 0x300)?;
    set_up(out, b"set-up from 1ff", 0x1FF, 0x01, 0x300)?;
    set_up(out, b"set-up, RX-ID 800,", 0x200, 0x01, 0x800)?;
    set_up(out, b"set-up, destination f0,", 0x200, 0xF0, 0x300)?;
    positive(out, b"positive reply", 0x10)?;
    positive(out, b"positive reply, application 2,", 0x02)?;
    refusal(out, b"negative reply", 0xD8, b"\x01\x02\x03\x04\x05")?;
    refusal(out, b"negative reply, 4 bytes,", 0xD8, b"\x01\x02\x03\x04")?;
    refusal(out, b"negative reply d9", 0xD9, b"\x01\x02\x03\x04\x05")
}
