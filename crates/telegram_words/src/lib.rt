// Telegrams in words: their bytes, numbers, codes and kinds.
#![tactic(auto)]

use std::io;
use telegram_types::{
    ACKNOWLEDGE, BREAK, CONNECTION, CONNECTION_ACKNOWLEDGE, DATA, DISCONNECT, POSITIVE, SET_UP,
    TEST,
};

// A byte, a space before it.
fn byte(out: &impl Print, b: u8) -> io::Result<()> {
    print!(out; " {b:02x}")
}

// The bytes, a space before each.
pub fn show(out: &impl Print, bytes: &[u8]) -> io::Result<()> {
    for b in bytes {
        byte(out, *b)?;
    }
    Ok(())
}

// The first n bytes, or all where there are fewer.
pub fn first(bytes: &[u8], n: usize) -> &[u8] {
    if n < bytes.len() {
        return &bytes[0..n];
    }
    bytes
}

// A number, a space before it.
pub fn number(out: &impl Print, n: u32) -> io::Result<()> {
    print!(out; " {n}")
}

// A code, an arrow before it.
pub fn code(out: &impl Print, n: u32) -> io::Result<()> {
    print!(out; " -> {n:02x}")
}

// A kind in words; a negative reply has its own byte there.
pub fn kind(out: &impl Print, n: u8) -> io::Result<()> {
    match n {
        DATA => out.write_all(b" data"),
        ACKNOWLEDGE => out.write_all(b" acknowledge"),
        CONNECTION => out.write_all(b" connection set-up"),
        CONNECTION_ACKNOWLEDGE => out.write_all(b" connection acknowledge"),
        TEST => out.write_all(b" test"),
        BREAK => out.write_all(b" break"),
        DISCONNECT => out.write_all(b" disconnect"),
        SET_UP => out.write_all(b" set-up"),
        POSITIVE => out.write_all(b" positive reply"),
        _ => print!(out; " negative reply {n:02x}"),
    }
}

// The bytes that a telegram carries.
pub fn carried(out: &impl Print, payload: &[u8; 7], n: usize) -> io::Result<()> {
    out.write_all(b"; carries")?;
    show(out, first(payload, n))
}

// All nine bytes of a buffer.
pub fn show_all(out: &impl Print, buf: &[u8; 9]) -> io::Result<()> {
    out.write_all(b":")?;
    show(out, buf)?;
    out.write_all(b"\n")
}
