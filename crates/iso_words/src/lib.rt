// ISO 15765 in words: what a frame of a conversation is, and what a record that a channel gives to read is.
#![tactic(auto)]

ghost use Rattle.std.specs.Prelude.{◌<◌};

use std::io;
use trace_words::{byte_at, number, sized, text};

// The lower half of a byte.
fn low(b: u8) -> u32
    ensures { result < 16 }
{
    b as u32 % 16
}

// What a channel passes over.
fn none(out: &impl Print) -> io::Result<()> {
    text(out, b"no frame of ISO 15765")
}

// A single frame: 1 to 7 bytes, all of them there.
fn single(out: &impl Print, list: &[u8]) -> io::Result<()> {
    let n = low(byte_at(list, 0));
    if (n < 1) | (n > 7) | (n as usize >= list.len()) {
        none(out)
    } else {
        sized(out, b"single frame, ", n)
    }
}

// A first frame: eight bytes, and the length of a message of 8 or more.
fn first(out: &impl Print, list: &[u8]) -> io::Result<()> {
    let n = low(byte_at(list, 0)) * 256 + byte_at(list, 1) as u32;
    if (n < 8) | (list.len() < 8) {
        none(out)
    } else {
        sized(out, b"first frame of ", n)
    }
}

// The least time between two consecutive frames. A reserved value counts as the longest.
fn gap(out: &impl Print, b: u8) -> io::Result<()> {
    let n = b as u32;
    if n < 0x80 {
        number(out, b", STmin ", n)?;
        text(out, b" ms")
    } else if (n > 0xF0) & (n < 0xFA) {
        number(out, b", STmin ", n % 16 * 100)?;
        text(out, b" us")
    } else {
        text(out, b", STmin 127 ms")
    }
}

// How many consecutive frames may follow, and how quickly.
fn go_on(out: &impl Print, size: u8, least: u8) -> io::Result<()> {
    number(out, b"flow: go on, block size ", size as u32)?;
    if size == 0 {
        text(out, b" (no limit)")?;
    }
    gap(out, least)
}

// A flow frame: three bytes or more.
fn flow(out: &impl Print, list: &[u8]) -> io::Result<()> {
    let status = low(byte_at(list, 0));
    if list.len() < 3 {
        return none(out);
    }
    match status {
        0 => go_on(out, byte_at(list, 1), byte_at(list, 2)),
        1 => text(out, b"flow: wait"),
        2 => text(out, b"flow: overflow"),
        _ => number(out, b"flow: status ", status),
    }
}

// What the bytes of a frame behind its identifier are.
pub fn frame(out: &impl Print, list: &[u8]) -> io::Result<()> {
    match byte_at(list, 0) as u32 / 16 {
        0 => single(out, list),
        1 => first(out, list),
        2 => number(out, b"consecutive frame number ", low(byte_at(list, 0))),
        3 => flow(out, list),
        _ => none(out),
    }
}

// What a record given to read is, by its RxStatus, in which 0x100 is the width.
pub fn record(out: &impl Print, status: u32) -> io::Result<()> {
    match status % 256 {
        0 => text(out, b"message"),
        1 => text(out, b"own message"),
        2 => text(out, b"start of a message"),
        9 => text(out, b"message sent"),
        _ => text(out, b"record"),
    }
}
