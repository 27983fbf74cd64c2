// Zeros where nothing is held: at the end of eight or twelve bytes, in the place of a record, in a whole part. Bytes are looked at as numbers.
#![tactic(auto)]

ghost use Rattle.std.specs.Prelude.{◌≡◌, ◌+◌, ◌*◌, ◌/◌, ◌^◌, ◌<◌, ◌≤◌, min, eqb, length, take, drop};
ghost use Rattle.codec.specs.Plain.{all_zero};
ghost use Rattle.machine.specs.Limits.{record_size, most_data};

use integers::word_at;
use octets::all_zero;

// Does a number fit k bytes?
fn fits_bytes(x: u64, k: usize) -> bool
    requires { k ≤ 8 }
    ensures { result ≡ eqb (x / 2 ^ (8 * k)) 0 }
{
    if k > 7 {
        return true;
    }
    x >> (8 * k) == 0
}

// The smaller of two numbers.
fn least(a: usize, b: usize) -> usize
    ensures { result ≡ min a b }
{
    if a < b { a } else { b }
}

// Are eight bytes zeros from the k-th on? As one number, lowest byte first, they then fit k bytes.
pub fn eight_end(s: &[u8], at: usize, k: usize) -> bool
    requires { (at + 8 ≤ length s.now) × (k ≤ 8) }
    ensures { result ≡ all_zero (drop k (take 8 (drop at s.now))) }
{
    fits_bytes(
        word_at(s, at) as u64 + 0x1_0000_0000 * (word_at(s, at + 4) as u64),
        k,
    )
}

// Are twelve bytes zeros from the n-th on?
pub fn twelve_end(s: &[u8], at: usize, n: usize) -> bool
    requires { (at + most_data ≤ length s.now) × (n ≤ most_data) }
    ensures { result ≡ all_zero (drop n (take most_data (drop at s.now))) }
{
    let low = least(n, 8);
    eight_end(s, at, low) & fits_bytes(word_at(s, at + 8) as u64, n - low)
}

// Are the 36 bytes at a place zeros? As four numbers of eight bytes and one of four.
pub fn no_record(s: &[u8], at: usize) -> bool
    requires { at + record_size ≤ length s.now }
    ensures { result ≡ all_zero (take record_size (drop at s.now)) }
{
    eight_end(s, at, 0)
        & eight_end(s, at + 8, 0)
        & eight_end(s, at + 16, 0)
        & eight_end(s, at + 24, 0)
        & (word_at(s, at + 32) == 0)
}

// Nothing but zeros? The first byte is looked at first: where something is held it often tells.
pub fn nothing(s: &[u8]) -> bool
    requires { 0 < length s.now }
    ensures { result ≡ all_zero s.now }
{
    if s[0] != 0 {
        return false;
    }
    all_zero(s)
}
