// The files of a case.
use std::rt::Files;
use std::{fs, io, str};

// The most bytes of a path: a case's name has fewer by far.
const PATH: usize = 64;

// Puts bytes into a path from a place on, as many as fit, and says where they end.
fn put(path: &mut [u8], at: usize, bytes: &[u8]) -> usize {
    let mut end = at;
    for byte in bytes {
        if end >= path.len() {
            return end;
        }
        path[end] = *byte;
        end += 1;
    }
    end
}

// Opens a file and reads it until it ends or the buffer is full, and says whether it could. `size`, 0 before, is how many bytes came.
fn read_path(rt: &impl Files, path: &[u8], buffer: &mut [u8], size: &mut usize) -> bool {
    let Ok(name) = str::from_utf8(path) else {
        return false;
    };
    let Ok(mut file) = fs::open(rt, name) else {
        return false;
    };
    input::read_all(&mut file, buffer, size).is_ok()
}

// Reads the file of a case whose name ends so, and says whether it could; where it could not, that is printed. `size`, 0 before, is how many
// bytes came.
pub fn read(
    rt: &(impl Files + Print),
    name: &[u8],
    ending: &[u8],
    buffer: &mut [u8],
    size: &mut usize,
) -> io::Result<bool> {
    let mut path = [0u8; PATH];
    let middle = put(&mut path, 0, name);
    let end = put(&mut path, middle, ending);
    let whole = input::first(&path, end);
    if read_path(rt, whole, buffer, size) {
        return Ok(true);
    }
    rt.write_all(b": the file ")?;
    rt.write_all(whole)?;
    rt.write_all(b" cannot be read\n")?;
    Ok(false)
}
