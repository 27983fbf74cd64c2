// What a conversation gives to be sent: a flow frame that waits, the next frame of its transmission. Its data go into a lent buffer of eight bytes, and
// its place then holds the transfer whose frame was taken.
#![tactic(auto)]

ghost use Rattle.std.specs.Prelude.{◌≡◌, ℕ, ◌≤◌, length};
ghost use Rattle.iso.specs.Limits.{most_payload};
ghost use Rattle.iso.specs.Iso.{answer_of, segment_of};
ghost use Rattle.iso_layout.specs.Sizes.{talk_size};
ghost use Rattle.framing.specs.Data.{frame_room};
ghost use Rattle.talk_giving.specs.Giving.{flow_waits, flow_status, flow_taken, next_due, next_taken, Placed, Gave};

use talk_head::Head;

// Kinds of a head.
const IDLE: u8 = 0;

const REFUSES: u8 = 1;

const RECEIVES: u8 = 2;

const FLIES: u8 = 5;

const SENDS: u8 = 6;

// Payload bytes in a consecutive frame; flow statuses.
const IN_NEXT: u32 = 7;

const GO_ON: u8 = 0;

const OVERFLOW: u8 = 2;

// Does a flow frame wait?
fn flow_waits(h: Head) -> bool
    ensures { result ≡ flow_waits h }
{
    (h.kind == REFUSES) | ((h.kind == RECEIVES) & h.waits)
}

// The status of the flow frame that waits.
fn flow_status(h: Head) -> u8
    ensures { (result ≡ flow_status h) × (result ≤ 2) }
{
    if h.kind == REFUSES { OVERFLOW } else { GO_ON }
}

// The head of a transfer whose flow frame was taken.
fn flow_taken(h: Head) -> Head
    ensures { result ≡ flow_taken h }
{
    if h.kind == REFUSES {
        return Head {
            kind: IDLE,
            n: 0,
            time: 0,
            left: 0,
            gap: 0,
            waits: false,
        };
    }
    Head {
        kind: h.kind,
        n: h.n,
        time: h.time,
        left: h.left,
        gap: h.gap,
        waits: false,
    }
}

// May the next frame of a transmission be taken?
fn next_due(h: Head) -> bool
    ensures { result ≡ next_due h }
{
    (h.kind == SENDS) & (h.time == 0)
}

// The head of a transmission whose next frame was taken.
fn next_taken(h: Head) -> Head
    requires { h.n ≤ most_payload }
    ensures { result ≡ next_taken h }
{
    Head {
        kind: FLIES,
        n: h.n + IN_NEXT,
        time: 0,
        left: h.left,
        gap: h.gap,
        waits: false,
    }
}

// A flow frame that waits, and how many bytes it has; 0 where none does.
pub fn answer(t: &mut [u8], d: &mut [u8]) -> usize
    requires { (length t.old ≡ talk_size) × (length d.old ≡ frame_room) }
    ensures { ((k : ℕ) → Gave (λ c. answer_of k c c.transfer) result d.new t.old t.new) × (result ≤ frame_room) }
{
    if t[0] == 0 {
        return 0;
    }
    let h = talk_head::head_in(t);
    if flow_waits(h) {
        talk_head::settle(t, flow_taken(h));
        return framing::flow(d, flow_status(h));
    }
    0
}

// The next frame of a transmission whose STmin is over, and how many bytes it has; 0 where there is none.
pub fn segment(t: &mut [u8], d: &mut [u8]) -> usize
    requires { (length t.old ≡ talk_size) × (length d.old ≡ frame_room) × Placed t.old }
    ensures { ((k : ℕ) → Gave (λ c. segment_of k c c.transfer) result d.new t.old t.new) × (result ≤ frame_room) }
{
    if t[0] == 0 {
        return 0;
    }
    let h = talk_head::head_in(t);
    if next_due(h) {
        let end = talk_head::BYTES + talk_head::payload_size(t) as usize;
        let m = framing::next(d, h.n as usize, &t[talk_head::BYTES..end]);
        talk_head::put_head(t, next_taken(h));
        return m;
    }
    0
}
