// A telegram's record of 32 bytes, filled with its numbers.
#![tactic(auto)]

ghost use Rattle.std.specs.Prelude.{◌≡◌, ◌∷◌, ◌++◌, ◌+◌, ◌≤◌, length};
ghost use borrow.Rule.Slice.PartMut.{put_mid};
ghost use Rattle.codec.specs.Plain.{zeros};
ghost use Rattle.codec.specs.Word.{word};
ghost use Rattle.telegram_record.specs.Record.{packed, byte_in};

// A number's four bytes at a place.
fn put(mut bytes: [u8; 32], at: usize, number: u32) -> [u8; 32]
    requires { at ≤ 28 }
    ensures { result ≡ put_mid at 4 bytes (word number) }
{
    let end = at + 4;
    integers::put_word(&mut bytes[at..end], number);
    bytes
}

// How many bytes are carried, and the seven that they stand in, behind zeros.
fn put_carried(len: u8, payload: [u8; 7]) -> [u8; 32]
    ensures { result ≡ zeros 24 ++ len ∷ payload }
{
    // eight bytes are one word of the machine; a copy of seven stays in memory at each step
    let [a, b, c, d, e, f, g] = payload;
    let mut bytes = [0u8; 32];
    octets::copy(&mut bytes[24..32], &[len, a, b, c, d, e, f, g]);
    bytes
}

// A kind, its fields, how many bytes are carried, and the seven that they stand in.
pub fn pack(kind: u8, fields: [u32; 5], len: u8, payload: [u8; 7]) -> [u8; 32]
    ensures { result ≡ packed kind fields len payload }
{
    let a = put(put_carried(len, payload), 0, kind as u32);
    let b = put(put(a, 4, fields[0]), 8, fields[1]);
    let c = put(put(b, 12, fields[2]), 16, fields[3]);
    put(c, 20, fields[4])
}

// The number at a place of a record, where it is a byte.
pub fn byte_at(bytes: &[u8], at: usize) -> Option<u8>
    requires { at + 4 ≤ length bytes.now }
    ensures { result ≡ byte_in at bytes.now }
{
    u8::try_from(integers::word_at(bytes, at)).ok()
}
