// What a transfer is but for its payload, as code meets it: one value out of a conversation's place, and into it; and the payload there.
#![tactic(auto)]

ghost use Rattle.std.specs.Prelude.{◌≡◌, ◌++◌, [], ◌+◌, ◌-◌, ◌≤◌, T, length, drop};
ghost use Rattle.codec.specs.Code.{mark_of};
ghost use Rattle.iso.specs.Limits.{most_payload};
ghost use Rattle.iso_layout.specs.Sizes.{count_in, go_on_in, talk_size};
ghost use Rattle.iso_layout.specs.Region.{payload508};
ghost use Rattle.talk_head.specs.Headed.{payload_on, payload_at, head_at, numbers, with_head, with_payload, settled};

use iso_places::{
    COUNT_IN, GAP_IN, GO_ON_IN, LEFT_IN, PAYLOAD_IN, TALK_SIZE, TIME_IN, TRANSFER_IN,
};
use places::NUMBER;

// Where in a place the payload begins, and where its bytes do.
const PAYLOAD: usize = TRANSFER_IN + PAYLOAD_IN;

pub const BYTES: usize = PAYLOAD + NUMBER;

// The kind (0 idle, 1 an overflow waits, 2 receives, 3 to 6 transmits: its first frame flies, it awaits a flow frame, a consecutive frame flies, it
// sends); the length awaited or the bytes taken; the microseconds run or left; the frames left in the block; STmin in microseconds; whether the
// go-on waits.
#[derive(Clone, Copy)]
pub struct Head {
    pub kind: u8,
    pub n: u32,
    pub time: u32,
    pub left: u32,
    pub gap: u32,
    pub waits: bool,
}

// The head of the transfer in a conversation's place.
pub fn head_in(t: &[u8]) -> Head
    requires { length t.now ≡ talk_size }
    ensures { result ≡ head_at t.now }
{
    Head {
        kind: t[TRANSFER_IN],
        n: integers::word_at(t, TRANSFER_IN + COUNT_IN),
        time: integers::word_at(t, TRANSFER_IN + TIME_IN),
        left: integers::word_at(t, TRANSFER_IN + LEFT_IN),
        gap: integers::word_at(t, TRANSFER_IN + GAP_IN),
        waits: t[TRANSFER_IN + GO_ON_IN] == 1,
    }
}

// The byte of a mark.
fn mark(on: bool) -> u8
    ensures { result ≡ mark_of on }
{
    if on { 1 } else { 0 }
}

// Four numbers side by side.
fn put_numbers(s: &mut [u8], n: u32, time: u32, left: u32, gap: u32)
    requires { length s.old ≡ go_on_in - count_in }
    ensures { s.new ≡ numbers n time left gap }
{
    integers::put_word(&mut s[0..NUMBER], n);
    integers::put_word(&mut s[NUMBER..2 * NUMBER], time);
    integers::put_word(&mut s[2 * NUMBER..3 * NUMBER], left);
    integers::put_word(&mut s[3 * NUMBER..4 * NUMBER], gap);
}

// A head into a conversation's place.
pub fn put_head(t: &mut [u8], h: Head)
    requires { length t.old ≡ talk_size }
    ensures { t.new ≡ with_head h t.old }
{
    t[TRANSFER_IN] = h.kind;
    put_numbers(
        &mut t[TRANSFER_IN + COUNT_IN..TRANSFER_IN + GO_ON_IN],
        h.n,
        h.time,
        h.left,
        h.gap,
    );
    t[TRANSFER_IN + GO_ON_IN] = mark(h.waits);
}

// No payload in a conversation's place.
pub fn clear_payload(t: &mut [u8])
    requires { length t.old ≡ talk_size }
    ensures { t.new ≡ with_payload [] t.old }
{
    octets::zero(&mut t[PAYLOAD..TALK_SIZE]);
}

// A payload into a conversation's place.
pub fn set_payload(t: &mut [u8], bytes: &[u8])
    requires { (length t.old ≡ talk_size) × (length bytes.now ≤ most_payload) }
    ensures { t.new ≡ with_payload bytes.now t.old }
{
    integers::put_word(&mut t[PAYLOAD..BYTES], bytes.len() as u32);
    records::put_padded(&mut t[BYTES..TALK_SIZE], bytes);
}

// How many bytes of payload there are in a conversation's place.
pub fn payload_size(t: &[u8]) -> u32
    requires { (length t.now ≡ talk_size) × T (payload508.valid (drop payload_on t.now)) }
    ensures { (result ≡ length (payload_at t.now)) × (result ≤ most_payload) }
{
    integers::word_at(t, PAYLOAD)
}

// Bytes behind those of the payload in a conversation's place.
pub fn append_payload(t: &mut [u8], bytes: &[u8])
    requires { (length t.old ≡ talk_size) × T (payload508.valid (drop payload_on t.old)) × (length (payload_at t.old) + length bytes.now ≤ most_payload) }
    ensures { t.new ≡ with_payload (payload_at t.old ++ bytes.now) t.old }
{
    let held = payload_size(t);
    let size = held + bytes.len() as u32;
    integers::put_word(&mut t[PAYLOAD..BYTES], size);
    octets::copy(&mut t[BYTES + held as usize..BYTES + size as usize], bytes);
}

// A head into a conversation's place; where it is that of a transfer without payload, none is left there.
pub fn settle(t: &mut [u8], h: Head)
    requires { length t.old ≡ talk_size }
    ensures { t.new ≡ settled h t.old }
{
    let bare = h.kind < 2;
    put_head(t, h);
    if bare {
        clear_payload(t);
    }
}
