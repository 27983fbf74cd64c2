// What differs between two answers.
use std::io;

// The first place at which two slices differ, or the shorter one's end.
fn place(a: &[u8], b: &[u8]) -> usize {
    let shorter = a.len().min(b.len());
    for i in 0..shorter {
        if a[i] != b[i] {
            return i;
        }
    }
    shorter
}

// A byte in hexadecimal.
fn hex(out: &impl Print, byte: u8) -> io::Result<()> {
    print!(out; "{byte:02x}")
}

// The byte at a place, or `none` past the end.
fn byte(out: &impl Print, bytes: &[u8], at: usize) -> io::Result<()> {
    if at < bytes.len() {
        hex(out, bytes[at])
    } else {
        out.write_all(b"none")
    }
}

// Both lengths, the first place that differs, and both bytes there.
pub fn print(out: &impl Print, answers: &[u8], expected: &[u8]) -> io::Result<()> {
    let at = place(answers, expected);
    let (got, wanted) = (answers.len(), expected.len());
    print!(out; ": {got} bytes and not {wanted}; at byte {at} ")?;
    byte(out, answers, at)?;
    out.write_all(b" and not ")?;
    byte(out, expected, at)?;
    out.write_all(b"\n")
}
