// Is this a transfer of a conversation? Its numbers by its kind, and its payload. Looked at in the conversation's place.
#![tactic(auto)]

ghost use Rattle.std.specs.Prelude.{◌≡◌, List, ℕ, ◌≤◌, length, drop};
ghost use Rattle.iso_layout.specs.Sizes.{payload_size, transfer_in, talk_size};
ghost use Rattle.iso_layout.specs.Region.{transfer_fits, transfer_code, payload508, step_of7, is_gap};
ghost use Rattle.iso_layout.specs.Region.{still as is_still, paced as is_paced};
ghost use Rattle.talk_head.specs.Headed.{head_parts};

use integers::word_at;
use octets::all_zero;
use talk_head::Head;

// A segmented message has at least 8 bytes: 6 in its first frame, 7 in each consecutive one but the last.
const LEAST_SEGMENTED: u32 = 8;

const IN_FIRST: u32 = 6;

const IN_NEXT: u32 = 7;

const MOST_PAYLOAD: u32 = iso_places::MOST_PAYLOAD as u32;
// One second without the awaited frame drops a transfer; the longest STmin. In microseconds.
const SECOND: u32 = 1_000_000;

const LONGEST_GAP: u32 = 127_000;
// In a conversation's place: its transfer's go-on mark and payload.
const GO_ON: usize = iso_places::TRANSFER_IN + iso_places::GO_ON_IN;

const PAYLOAD: usize = iso_places::TRANSFER_IN + iso_places::PAYLOAD_IN;

// Can so many bytes have been taken or received before the last frame: 6, 13, 20, ..?
fn step(n: u32) -> bool
    ensures { result ≡ step_of7 n }
{
    (IN_FIRST <= n) & ((n as u64 + 1) % (IN_NEXT as u64) == 0)
}

// Is this a gap that some STmin gives?
fn is_gap(n: u32) -> bool
    ensures { result ≡ is_gap n }
{
    ((n % 1000 == 0) & (n <= LONGEST_GAP)) | ((n % 100 == 0) & (n < 1000))
}

// No time, no block, no go-on?
fn still(h: Head) -> bool
    ensures { result ≡ is_still h.time h.left h.gap h.waits }
{
    (h.time == 0) & (h.left == 0) & (h.gap == 0) & !h.waits
}

// A block and a gap, and no go-on?
fn paced(h: Head) -> bool
    ensures { result ≡ is_paced h.left h.gap h.waits }
{
    (h.left < 256) & is_gap(h.gap) & !h.waits
}

// The numbers of a transmission with a payload of so many bytes, by its kind: its first frame flies, it awaits, a consecutive frame flies, it sends.
fn sending(h: Head, size: u32) -> bool
    requires { 3 ≤ h.kind }
    ensures { (b : List ℕ) → length b ≡ size → result ≡ transfer_fits (head_parts h b) }
{
    let long = LEAST_SEGMENTED <= size;
    if h.kind == 3 {
        return still(h) & long & (h.n == IN_FIRST);
    }
    if h.kind == 4 {
        let none = (h.left == 0) & (h.gap == 0) & !h.waits;
        return none & step(h.n) & (h.n < size) & long & (h.time < SECOND);
    }
    if h.kind == 5 {
        let taken = step(h.n) & (IN_FIRST + IN_NEXT <= h.n);
        return paced(h)
            & taken
            & ((h.n as u64) < size as u64 + IN_NEXT as u64)
            & long
            & (h.time == 0);
    }
    if h.kind == 6 {
        return paced(h) & step(h.n) & (h.n < size) & long & (h.time <= h.gap);
    }
    false
}

// The numbers of a transfer with a payload of so many bytes.
fn fits(h: Head, size: u32) -> bool
    ensures { (b : List ℕ) → length b ≡ size → result ≡ transfer_fits (head_parts h b) }
{
    if h.kind < 2 {
        return still(h) & (h.n == 0) & (size == 0);
    }
    if h.kind == 2 {
        let whole = (LEAST_SEGMENTED <= h.n) & (h.n <= MOST_PAYLOAD);
        return (h.left == 0) & (h.gap == 0) & whole & step(size) & (size < h.n) & (h.time < SECOND);
    }
    sending(h, size)
}

// At most 508 bytes behind their count, and zeros behind them.
fn payload(s: &[u8]) -> bool
    requires { length s.now ≡ payload_size }
    ensures { result ≡ payload508.valid s.now }
{
    let n = word_at(s, 0);
    if n > MOST_PAYLOAD {
        return false;
    }
    let z = places::NUMBER + n as usize;
    all_zero(&s[z..])
}

// The transfer in a conversation's place.
pub fn transfer(t: &[u8]) -> bool
    requires { length t.now ≡ talk_size }
    ensures { result ≡ transfer_code.valid (drop transfer_in t.now) }
{
    let head = Head {
        kind: t[iso_places::TRANSFER_IN],
        n: word_at(t, iso_places::TRANSFER_IN + iso_places::COUNT_IN),
        time: word_at(t, iso_places::TRANSFER_IN + iso_places::TIME_IN),
        left: word_at(t, iso_places::TRANSFER_IN + iso_places::LEFT_IN),
        gap: word_at(t, iso_places::TRANSFER_IN + iso_places::GAP_IN),
        waits: 1 == t[GO_ON],
    };
    (t[GO_ON] <= 1) & payload(&t[PAYLOAD..iso_places::TALK_SIZE]) & fits(head, word_at(t, PAYLOAD))
}
