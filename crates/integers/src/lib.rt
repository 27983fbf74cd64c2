// Numbers in bytes: 32-bit numbers, lowest byte first, and identifiers, highest byte first. And what is left of a number.
#![tactic(auto)]

ghost use Rattle.std.specs.Prelude.{◌≡◌, ◌+◌, ◌-◌, ◌≤◌, ◌<◌, T, length, drop};
ghost use Rattle.codec.specs.Plain.{all, is_byte};
ghost use Rattle.codec.specs.Word.{word, word_at};
ghost use Rattle.machine.specs.Message.{id_bytes, id_of};

// A byte as a 32-bit number.
pub fn wide(x: u8) -> u32
    ensures { (result ≡ x) × (result < 256) }
{
    u32::from(x)
}

// What is left of a number: nothing where more is taken.
pub fn less(n: u32, k: u32) -> u32
    ensures { result ≡ n - k }
{
    n.saturating_sub(k)
}

// The number whose four bytes, lowest first, begin at a place; and that every byte of the slice is one.
pub fn word_at(s: &[u8], at: usize) -> u32
    requires { at + 4 ≤ length s.now }
    ensures { (result ≡ word_at at s.now) × T (all is_byte s.now) }
{
    u32::from_le_bytes([s[at], s[at + 1], s[at + 2], s[at + 3]])
}

// The identifier whose four bytes, highest first, begin at a place.
pub fn id_at(s: &[u8], at: usize) -> u32
    requires { at + 4 ≤ length s.now }
    ensures { result ≡ id_of (drop at s.now) }
{
    u32::from_be_bytes([s[at], s[at + 1], s[at + 2], s[at + 3]])
}

// A number as four bytes, lowest first.
pub fn put_word(s: &mut [u8], v: u32)
    requires { length s.old ≡ 4 }
    ensures { s.new ≡ word v }
{
    s.copy_from_slice(&v.to_le_bytes());
}

// An identifier as four bytes, highest first.
pub fn put_id(s: &mut [u8], id: u32)
    requires { length s.old ≡ 4 }
    ensures { s.new ≡ id_bytes id }
{
    s.copy_from_slice(&id.to_be_bytes());
}
