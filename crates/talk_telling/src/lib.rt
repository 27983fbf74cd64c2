// What a conversation tells of a frame, with the payload of a message in a lent buffer.
#![tactic(auto)]

ghost use Rattle.std.specs.Prelude.{◌≡◌, ◌++◌, ℕ, ◌+◌, ◌≤◌, ◌<◌, length, take, drop};
ghost use Rattle.machine.specs.Limits.{most_bytes};
ghost use Rattle.iso.specs.Limits.{most_payload};
ghost use Rattle.iso.specs.Iso.{Talk};
ghost use Rattle.talk_head.specs.Headed.{payload_at};
ghost use Rattle.talk_hearing.specs.Meaning.{meant};
ghost use Rattle.talk_telling.specs.Telling.{told, Short, Readable, Heedful};

use talk_head::BYTES;
use talk_hearing::Means;

// The bytes of a frame in front of its payload.
const NEXT_IN: usize = 1;

// What a conversation tells: nothing, that a reception began, or a message whose payload is the first so many bytes of a lent buffer.
#[derive(Drop)]
pub enum Told {
    Silence,
    Start,
    Message(usize),
}

// So many payload bytes of a frame to the front of a buffer.
fn put_part(scratch: &mut [u8], bytes: &[u8], n: usize)
    requires { (n < length bytes.now) × (length bytes.now ≤ most_bytes) × (length scratch.old ≡ most_payload) }
    ensures { take n scratch.new ≡ take n (drop 1 bytes.now) }
{
    octets::copy(&mut scratch[0..n], &bytes[NEXT_IN..NEXT_IN + n]);
}

// The payload in a place and so many payload bytes of a frame to the front of a buffer; how many they are.
fn put_whole(scratch: &mut [u8], t: &[u8], bytes: &[u8], n: usize) -> usize
    requires { Readable t.now × (n < length bytes.now) × (length (payload_at t.now) + n ≤ most_payload) × (length scratch.old ≡ most_payload) }
    ensures { (take result scratch.new ≡ payload_at t.now ++ take n (drop 1 bytes.now)) × (result ≤ most_payload) }
{
    let held = talk_head::payload_size(t) as usize;
    octets::copy(&mut scratch[0..held], &t[BYTES..BYTES + held]);
    octets::copy(&mut scratch[held..held + n], &bytes[NEXT_IN..NEXT_IN + n]);
    held + n
}

// What a frame tells by its meaning; the payload of a message to the front of a lent buffer.
pub fn tell(m: Means, t: &[u8], bytes: &[u8], scratch: &mut [u8]) -> Told
    requires { Heedful m t.now bytes.now × (length bytes.now ≤ most_bytes) × (length scratch.old ≡ most_payload) }
    ensures { ((clock : ℕ) (c : Talk) → (meant m clock c (payload_at t.now) bytes.now).records ≡ told result clock c scratch.new) × Short result }
{
    match m {
        Means::Nothing => Told::Silence,
        Means::Single(n) => {
            put_part(scratch, bytes, n);
            Told::Message(n)
        }
        Means::Instead(n) => {
            put_part(scratch, bytes, n);
            Told::Message(n)
        }
        Means::Start(_) => Told::Start,
        Means::Refuse => Told::Silence,
        Means::Drop => Told::Silence,
        Means::More(_) => Told::Silence,
        Means::Last(n) => {
            let whole = put_whole(scratch, t, bytes, n);
            Told::Message(whole)
        }
        Means::Flow(_) => Told::Silence,
    }
}
