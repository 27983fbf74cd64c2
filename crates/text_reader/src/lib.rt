// Reads text: where a byte stands, the value of a digit of either case, the number of some digits.
#![tactic(auto)]

ghost use Rattle.std.specs.Prelude.{◌≡◌, ◌≤◌, length};
ghost use Rattle.text.specs.Text.{digit_in};
ghost use Rattle.text_reader.specs.Reading.{first_at, valued, near, near_value};

// A number past every one that counts: larger ones are not told apart.
pub const FAR: u64 = 10000000000;

// The place of the first such byte from a place on.
pub fn find(s: &[u8], from: usize, byte: u8) -> Option<usize>
    requires { from ≤ length s.now }
    ensures { result ≡ first_at byte s.now from }
{
    for i in from..s.len() {
        if s[i] == byte {
            return Some(i);
        }
    }
    None
}

// The value of a hexadecimal digit of either case.
pub fn digit(c: u8) -> Option<u8>
    ensures { result ≡ valued (digit_in c) }
{
    if (48 <= c) & (c <= 57) {
        return Some(c - 48);
    }
    if (65 <= c) & (c <= 70) {
        return Some(c - 55);
    }
    if (97 <= c) & (c <= 102) {
        return Some(c - 87);
    }
    None
}

// A number, or the far one if it is larger.
fn at_most_far(v: u64) -> u64
    ensures { result ≡ near v }
{
    if v <= FAR {
        return v;
    }
    FAR
}

// The number that all these digits make, no larger than the far one; none where one of them is no digit of the base.
pub fn number(s: &[u8], base: u64) -> Option<u64>
    requires { (1 ≤ base) × (base ≤ 16) }
    ensures { result ≡ near_value base s.now }
{
    let mut v: u64 = 0;
    for c in s {
        let d = digit(*c)? as u64;
        if d >= base {
            return None;
        }
        v = at_most_far(v * base + d);
    }
    Some(v)
}
