// A frame on the place of a conversation: its transfer afterwards, and what is told.
#![tactic(auto)]

ghost use Rattle.std.specs.Prelude.{◌≡◌, ◌++◌, ℕ, ◌+◌, ◌≤◌, T, length, get_or, take, drop};
ghost use Rattle.codec.specs.Code.{slot};
ghost use Rattle.machine.specs.Limits.{most_bytes};
ghost use Rattle.iso.specs.Limits.{most_payload, in_first, in_next};
ghost use Rattle.iso.specs.Iso.{turned_slot};
ghost use Rattle.iso_layout.specs.Sizes.{talk_size};
ghost use Rattle.iso_layout.specs.Region.{talk_cell};
ghost use Rattle.talk_head.specs.Headed.{payload_at, with_head, with_payload};
ghost use Rattle.talk_hearing.specs.Meaning.{meant};
ghost use Rattle.talk_telling.specs.Telling.{Short, Readable, Heedful};
ghost use Rattle.talk_frames.specs.Hearing.{bare_head, Talking, Hears};

use iso_places::{FLOW_IN, PATTERN_IN};
use talk_head::Head;
use talk_hearing::Means;
use talk_telling::Told;

// Bytes of a frame in front of its payload, in a first frame and in any other; and where a whole frame ends.
const FIRST_IN: usize = 2;

const NEXT_IN: usize = 1;

const END: usize = 8;

// Kinds of a transfer without payload.
const IDLE: u8 = 0;

const REFUSES: u8 = 1;

// The head of a transfer without payload, by its kind.
fn bare(kind: u8) -> Head
    ensures { result ≡ bare_head kind }
{
    Head {
        kind,
        n: 0,
        time: 0,
        left: 0,
        gap: 0,
        waits: false,
    }
}

// A reception begins with the payload of a first frame.
fn start(t: &mut [u8], h: Head, bytes: &[u8])
    requires { (length t.old ≡ talk_size) × (2 + in_first ≤ length bytes.now) }
    ensures { t.new ≡ with_payload (take in_first (drop 2 bytes.now)) (with_head h t.old) }
{
    talk_head::put_head(t, h);
    talk_head::set_payload(t, &bytes[FIRST_IN..END]);
}

// A reception goes on with the payload of a consecutive frame.
fn more(t: &mut [u8], h: Head, bytes: &[u8])
    requires { Readable t.old × (1 + in_next ≤ length bytes.now) × (length (payload_at t.old) + in_next ≤ most_payload) }
    ensures { t.new ≡ with_payload (payload_at t.old ++ take in_next (drop 1 bytes.now)) (with_head h t.old) }
{
    talk_head::put_head(t, h);
    talk_head::append_payload(t, &bytes[NEXT_IN..END]);
}

// The transfer in a place after a frame, by its meaning.
fn turn(m: Means, t: &mut [u8], bytes: &[u8])
    requires { Heedful m t.old bytes.now }
    ensures { (flags : ℕ) → T ((slot (talk_cell flags)).valid t.old) → (get_or t.old 0 0 ≡ 0 → ⊥) → (clock : ℕ) → t.new ≡ (slot (talk_cell flags)).put (turned_slot (λ c. (meant m clock c (payload_at t.old) bytes.now).transfer) ((slot (talk_cell flags)).get t.old)) }
{
    match m {
        Means::Nothing => {}
        Means::Single(_) => {}
        Means::Instead(_) => talk_head::settle(t, bare(IDLE)),
        Means::Start(h) => start(t, h, bytes),
        Means::Refuse => talk_head::settle(t, bare(REFUSES)),
        Means::Drop => talk_head::settle(t, bare(IDLE)),
        Means::More(h) => more(t, h, bytes),
        Means::Last(_) => talk_head::settle(t, bare(IDLE)),
        Means::Flow(h) => talk_head::put_head(t, h),
    }
}

// A conversation hears a frame: its transfer afterwards, and what it tells.
pub fn hear(t: &mut [u8], bytes: &[u8], scratch: &mut [u8]) -> Told
    requires { Talking t.old × (length bytes.now ≤ most_bytes) × (length scratch.old ≡ most_payload) }
    ensures { ((flags : ℕ) → T ((slot (talk_cell flags)).valid t.old) → (clock : ℕ) → Hears clock bytes.now (slot (talk_cell flags)) t.old t.new result scratch.new) × Short result }
{
    let same = integers::word_at(t, PATTERN_IN) == integers::word_at(t, FLOW_IN);
    let held = talk_head::payload_size(t) as usize;
    let m = talk_hearing::meaning(talk_head::head_in(t), held, same, bytes);
    let r = talk_telling::tell(m, t, bytes, scratch);
    turn(m, t, bytes);
    r
}
