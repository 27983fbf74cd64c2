// What a frame means to a conversation, decided by value: its transfer's head, how many payload bytes it holds, and the frame.
#![tactic(auto)]

ghost use Rattle.std.specs.Prelude.{◌≡◌, Bool, List, [], ℕ, ◌+◌, ◌%◌, ◌≤◌, ◌<◌, min, length};
ghost use Rattle.iso.specs.Limits.{most_payload};
ghost use Rattle.iso.specs.Iso.{Talk, gap_of, number_after, on_single, on_first, on_consecutive, becomes, on_flow_of, listening};
ghost use Rattle.talk_hearing.specs.Meaning.{Meant, Room, Sized};

use talk_head::Head;

// Kinds of a head.
pub const RECEIVES: u8 = 2;

const AWAITS: u8 = 4;

const SENDS: u8 = 6;

// Kinds of a frame, by the high half of its first byte.
const SINGLE: u8 = 0;

const FIRST: u8 = 1;

const NEXT: u8 = 2;

const FLOW: u8 = 3;

// Payload bytes of a single and of a consecutive frame; the bytes of a whole frame and of a flow frame; the least length of a segmented message.
const IN_FRAME: usize = 7;

const WHOLE: usize = 8;

const IN_FLOW: usize = 3;

const LEAST: u32 = 8;

const MOST: u32 = iso_places::MOST_PAYLOAD as u32;

// STmin: the largest number of milliseconds; 100 to 900 µs; the longest.
const MOST_MS: u32 = 0x7F;

const NO_US: u32 = 0xF0;

const MOST_US: u32 = 0xF9;

const LONGEST: u32 = 127000;

// What a frame means: nothing; a message of so many bytes behind its first, beside what the transfer does or at the end of a reception; a reception
// begins, refused, is dropped, goes on, or is whole with so many bytes behind the first; a transmission goes on.
#[derive(Clone, Copy)]
pub enum Means {
    Nothing,
    Single(usize),
    Instead(usize),
    Start(Head),
    Refuse,
    Drop,
    More(Head),
    Last(usize),
    Flow(Head),
}

// STmin in microseconds.
pub fn gap_of(v: u32) -> u32
    ensures { result ≡ gap_of v }
{
    if v <= MOST_MS {
        return 1000 * v;
    }
    if v <= NO_US {
        return LONGEST;
    }
    if v <= MOST_US {
        return 100 * (v - NO_US);
    }
    LONGEST
}

// The number of the consecutive frame after so many bytes.
pub fn number_after(n: usize) -> usize
    requires { n ≤ most_payload }
    ensures { result ≡ number_after n }
{
    (n + 1) / IN_FRAME % 16
}

// The low half of a byte.
fn low(x: u8) -> usize
    ensures { (result ≡ x % 16) × (result < 16) }
{
    (x % 16) as usize
}

// The smaller of two.
fn least(a: usize, b: usize) -> usize
    ensures { result ≡ min a b }
{
    if a <= b { a } else { b }
}

// A single frame: a message of one to seven bytes, if they are there; a reception ends.
fn single(h: Head, bytes: &[u8]) -> Means
    requires { (0 < length bytes.now) × (h.kind ≤ 2) }
    ensures { ((held : ℕ) (same : Bool) → Meant result h held same bytes.now (λ t c. on_single t c bytes.now)) × ((held : ℕ) → Room result held bytes.now) }
{
    let n = low(bytes[0]);
    if n < 1 {
        return Means::Nothing;
    }
    if n > IN_FRAME {
        return Means::Nothing;
    }
    if n >= bytes.len() {
        return Means::Nothing;
    }
    if h.kind == RECEIVES {
        return Means::Instead(n);
    }
    Means::Single(n)
}

// A first frame: nothing where pattern equals flow, or where it is short or tells less than a segmented message has; else a reception, or an overflow.
fn first(same: bool, bytes: &[u8]) -> Means
    requires { 0 < length bytes.now }
    ensures { ((h : Head) (held : ℕ) → Meant result h held same bytes.now (λ t c. on_first t c bytes.now)) × ((held : ℕ) → Room result held bytes.now) }
{
    if same {
        return Means::Nothing;
    }
    if bytes.len() < WHOLE {
        return Means::Nothing;
    }
    let size = integers::wide(bytes[0] % 16) * 256 + integers::wide(bytes[1]);
    if size < LEAST {
        return Means::Nothing;
    }
    if size > MOST {
        return Means::Refuse;
    }
    Means::Start(Head {
        kind: RECEIVES,
        n: size,
        time: 0,
        left: 0,
        gap: 0,
        waits: true,
    })
}

// A consecutive frame of a reception: nothing where it is short, its end where its number is another; else more bytes, or the last.
fn next(h: Head, held: usize, bytes: &[u8]) -> Means
    requires { (0 < length bytes.now) × (h.kind ≡ 2) × Sized h held }
    ensures { ((same : Bool) → Meant result h held same bytes.now (λ t c. on_consecutive t c c.transfer bytes.now)) × Room result held bytes.now }
{
    let missing = h.n as usize - held;
    if bytes.len() <= least(IN_FRAME, missing) {
        return Means::Nothing;
    }
    if low(bytes[0]) != number_after(held) {
        return Means::Drop;
    }
    if IN_FRAME < missing {
        return Means::More(Head {
            kind: RECEIVES,
            n: h.n,
            time: 0,
            left: 0,
            gap: 0,
            waits: h.waits,
        });
    }
    Means::Last(missing)
}

// A flow frame: nothing where none is awaited or it is short; else go on, wait, or an end.
fn flow(h: Head, bytes: &[u8]) -> Means
    requires { 0 < length bytes.now }
    ensures { ((held : ℕ) (same : Bool) → Meant result h held same bytes.now (λ t c. becomes (on_flow_of c.transfer bytes.now) [])) × ((held : ℕ) → Room result held bytes.now) }
{
    if h.kind != AWAITS {
        return Means::Nothing;
    }
    if bytes.len() < IN_FLOW {
        return Means::Nothing;
    }
    let status = low(bytes[0]);
    if status == 0 {
        return Means::Flow(Head {
            kind: SENDS,
            n: h.n,
            time: 0,
            left: integers::wide(bytes[1]),
            gap: gap_of(integers::wide(bytes[2])),
            waits: false,
        });
    }
    if status == 1 {
        return Means::Flow(Head {
            kind: AWAITS,
            n: h.n,
            time: 0,
            left: 0,
            gap: 0,
            waits: false,
        });
    }
    Means::Drop
}

// A frame, by the high half of its first byte; a conversation that transmits hears flow frames alone.
pub fn meaning(h: Head, held: usize, same: bool, bytes: &[u8]) -> Means
    requires { Sized h held }
    ensures { Meant result h held same bytes.now (λ t c. listening t c bytes.now) × Room result held bytes.now }
{
    if bytes.len() < 1 {
        return Means::Nothing;
    }
    let high = bytes[0] / 16;
    if high == FLOW {
        return flow(h, bytes);
    }
    let kind = h.kind;
    if kind > RECEIVES {
        return Means::Nothing;
    }
    if high == SINGLE {
        return single(h, bytes);
    }
    if high == FIRST {
        return first(same, bytes);
    }
    if high != NEXT {
        return Means::Nothing;
    }
    if kind < RECEIVES {
        return Means::Nothing;
    }
    next(h, held, bytes)
}
