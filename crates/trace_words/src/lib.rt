// Words, numbers, codes and records on what prints.
#![tactic(auto)]

use std::io;

// Text as it is.
pub fn text(out: &impl Print, bytes: &[u8]) -> io::Result<()> {
    out.write_all(bytes)
}

// A label and a number.
pub fn number(out: &impl Print, label: &[u8], n: u32) -> io::Result<()> {
    text(out, label)?;
    print!(out; "{n}")
}

// Two numbers, each behind its label.
pub fn two(out: &impl Print, label: &[u8], n: u32, second: &[u8], m: u32) -> io::Result<()> {
    number(out, label, n)?;
    number(out, second, m)
}

// How many records, behind a label.
pub fn records(out: &impl Print, label: &[u8], n: u32) -> io::Result<()> {
    number(out, label, n)?;
    if n == 1 {
        text(out, b" record")
    } else {
        text(out, b" records")
    }
}

// How many bytes, behind a label.
pub fn sized(out: &impl Print, label: &[u8], n: u32) -> io::Result<()> {
    number(out, label, n)?;
    if n == 1 {
        text(out, b" byte")
    } else {
        text(out, b" bytes")
    }
}

// A label and a number in hexadecimal.
pub fn hex(out: &impl Print, label: &[u8], n: u32) -> io::Result<()> {
    text(out, label)?;
    print!(out; "{n:03x}")
}

// A byte in hexadecimal, a space before it.
fn byte(out: &impl Print, b: u8) -> io::Result<()> {
    print!(out; " {b:02x}")
}

// The bytes in hexadecimal, a space before each.
pub fn bytes(out: &impl Print, list: &[u8]) -> io::Result<()> {
    for i in 0..list.len() {
        byte(out, list[i])?;
    }
    Ok(())
}

// The byte at a place, 0 past the end.
pub fn byte_at(list: &[u8], at: usize) -> u8 {
    if at < list.len() { list[at] } else { 0 }
}

// The bytes from one place up to another, none where they are not all there.
pub fn part(bytes: &[u8], from: usize, end: usize) -> &[u8] {
    if from <= end {
        if end <= bytes.len() {
            return &bytes[from..end];
        }
    }
    input::first(bytes, 0)
}

// Where the n-th of some words begins, which commas part; the end where there are not so many.
fn word_start(words: &[u8], n: u32) -> usize {
    let mut left = n;
    for at in 0..words.len() {
        if left == 0 {
            return at;
        }
        if words[at] == b',' {
            left -= 1;
        }
    }
    words.len()
}

// Where the word at a place ends.
fn word_end(words: &[u8], from: usize) -> usize {
    for at in from..words.len() {
        if words[at] == b',' {
            return at;
        }
    }
    from.max(words.len())
}

// The name of a number: the word of its place in a list, in brackets. Nothing where it has none.
pub fn name(out: &impl Print, n: u32, words: &[u8]) -> io::Result<()> {
    let from = word_start(words, n);
    let word = part(words, from, word_end(words, from));
    if word.len() > 0 {
        text(out, b" (")?;
        text(out, word)?;
        text(out, b")")?;
    }
    Ok(())
}

// A label, a number and its name.
pub fn named(out: &impl Print, label: &[u8], n: u32, words: &[u8]) -> io::Result<()> {
    number(out, label, n)?;
    name(out, n, words)
}

// A code and its name in J2534.
pub fn code(out: &impl Print, n: u32) -> io::Result<()> {
    print!(out; "0x{n:02x}")?;
    name(
        out,
        n,
        b"STATUS_NOERROR,ERR_NOT_SUPPORTED,ERR_INVALID_CHANNEL_ID,ERR_INVALID_PROTOCOL_ID,ERR_NULL_PARAMETER,ERR_INVALID_IOCTL_VALUE,ERR_INVALID_FLAGS,ERR_FAILED,,ERR_TIMEOUT,ERR_INVALID_MSG,ERR_INVALID_TIME_INTERVAL,ERR_EXCEEDED_LIMIT,ERR_INVALID_MSG_ID,,ERR_INVALID_IOCTL_ID,ERR_BUFFER_EMPTY,ERR_BUFFER_FULL,ERR_BUFFER_OVERFLOW,ERR_PIN_INVALID,ERR_CHANNEL_IN_USE,ERR_MSG_PROTOCOL_ID,ERR_INVALID_FILTER_ID,ERR_NO_FLOW_CONTROL,ERR_NOT_UNIQUE,ERR_INVALID_BAUDRATE,ERR_INVALID_DEVICE_ID",
    )
}

// Spaces before a number, so that numbers of up to five digits end in one column.
fn indent(out: &impl Print, n: usize) -> io::Result<()> {
    if n < 10 {
        text(out, b"    ")
    } else if n < 100 {
        text(out, b"   ")
    } else if n < 1000 {
        text(out, b"  ")
    } else if n < 10000 {
        text(out, b" ")
    } else {
        Ok(())
    }
}

// The number of a line.
pub fn line(out: &impl Print, n: usize) -> io::Result<()> {
    indent(out, n)?;
    print!(out; "{n}  ")
}

// A bad event, at which a replay ends.
pub fn bad(out: &impl Print, at: usize) -> io::Result<()> {
    print!(out; "bad event at byte {at}")
}

// The flags of a connection, a listener's in a word too.
pub fn flags(out: &impl Print, n: u32) -> io::Result<()> {
    hex(out, b", flags 0x", n)?;
    if can::listens(n) {
        text(out, b" (listen-only)")?;
    }
    Ok(())
}
