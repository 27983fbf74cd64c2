// A recording from standard input or a file.
#![tactic(auto)]

ghost use Rattle.std.specs.Prelude.{◌≡◌, ◌≤◌, ◌<◌, length, take, IfOk, IfSome};

use std::io;
use std::io::{ErrorKind, Read};

// One byte more than a recording may have: it tells an overlong one, and nothing past it is read.
pub const READ: usize = recording_sizes::LONGEST + 1;

// Reads once behind the first `at` bytes and says how many are there then, or that the input has ended. A read that a signal interrupted has read
// nothing, and can be tried again.
fn read_more<R: Read>(reader: &mut R, buffer: &mut [u8], at: usize) -> io::Result<Option<usize>> {
    if at >= buffer.len() {
        return Ok(None);
    }
    match reader.read(&mut buffer[at..]) {
        Ok(0) => Ok(None),
        Ok(n) => Ok(Some(at + n)),
        Err(e) => {
            if e.kind() == ErrorKind::Interrupted {
                return Ok(Some(at));
            }
            Err(e)
        }
    }
}

// Reads until the input ends or the buffer is full, or says why it could not. `size`, 0 before, is how many bytes came.
pub fn read_all<R: Read>(reader: &mut R, buffer: &mut [u8], size: &mut usize) -> io::Result<()> {
    for _ in 0..u64::MAX {
        match read_more(reader, buffer, *size)? {
            Some(n) => *size = n,
            None => return Ok(()),
        }
    }
    Err(io::Error::from(ErrorKind::Other))
}

// The first n bytes, or all where there are fewer.
pub fn first(bytes: &[u8], n: usize) -> &[u8]
    ensures { result.now ≡ take n bytes.now }
{
    if n < bytes.len() {
        return &bytes[..n];
    }
    bytes
}
