// A conversation when the frame in flight that belongs to it was sent: what becomes of its transfer, and whether a message is whole.
#![tactic(auto)]

ghost use Rattle.std.specs.Prelude.{◌≡◌, List, ℕ, ◌-◌, T, length};
ghost use Rattle.codec.specs.Code.{slot};
ghost use Rattle.iso.specs.Iso.{Transfer, turned_slot, news_at, sent_of, done_of};
ghost use Rattle.iso_layout.specs.Sizes.{talk_size};
ghost use Rattle.iso_layout.specs.Region.{talk_cell};
ghost use Rattle.talk_head.specs.Headed.{Tells, remains};
ghost use Rattle.talk_landing.specs.Landed.{awaiting, advanced, whole_if};

use iso_places::{PAYLOAD_IN, TRANSFER_IN};
use talk_head::Head;

// Where in a place the count of the payload stands.
const PAYLOAD: usize = TRANSFER_IN + PAYLOAD_IN;

// The frames left in a block but one.
fn fewer(left: u32) -> u32
    ensures { result ≡ left - 1 }
{
    if left < 1 {
        return 0;
    }
    left - 1
}

// The head of a transmission of which n bytes were taken and that awaits a flow frame from now on.
fn awaits(n: u32) -> Head
    ensures { result ≡ awaiting n }
{
    Head {
        kind: 4,
        n,
        time: 0,
        left: 0,
        gap: 0,
        waits: false,
    }
}

// The head of a transmission of so many bytes once a consecutive frame of it was sent.
fn next(h: Head, size: u32) -> Head
    ensures { result ≡ advanced h size }
{
    if size <= h.n {
        return Head {
            kind: 0,
            n: 0,
            time: 0,
            left: 0,
            gap: 0,
            waits: false,
        };
    }
    if h.left == 1 {
        return awaits(h.n);
    }
    let left = fewer(h.left);
    Head {
        kind: 6,
        n: h.n,
        time: h.gap,
        left,
        gap: h.gap,
        waits: false,
    }
}

// The head of a transfer with a payload of so many bytes, once its frame was sent.
pub fn sent_head(h: Head, size: u32) -> Head
    ensures { (b : List ℕ) (x : Transfer) → size ≡ length b → Tells h b x → Tells result (remains result b) (sent_of x) }
{
    if h.kind == 2 {
        return Head {
            kind: h.kind,
            n: h.n,
            time: 0,
            left: h.left,
            gap: h.gap,
            waits: h.waits,
        };
    }
    if h.kind == 3 {
        return awaits(h.n);
    }
    if h.kind == 5 {
        return next(h, size);
    }
    h
}

// A conversation's place once its frame was sent.
pub fn landed_in(t: &mut [u8])
    requires { length t.old ≡ talk_size }
    ensures { (flags : ℕ) → T ((slot (talk_cell flags)).valid t.old) → t.new ≡ (slot (talk_cell flags)).put (turned_slot (λ c. sent_of c.transfer) ((slot (talk_cell flags)).get t.old)) }
{
    if t[0] == 0 {
        return;
    }
    let h = talk_head::head_in(t);
    let size = integers::word_at(t, PAYLOAD);
    let then = sent_head(h, size);
    talk_head::settle(t, then);
}

// Is the message in a conversation's place whole once its frame was sent?
pub fn whole_in(t: &[u8]) -> bool
    requires { length t.now ≡ talk_size }
    ensures { (flags : ℕ) → T ((slot (talk_cell flags)).valid t.now) → news_at (λ c. done_of c c.transfer) ((slot (talk_cell flags)).get t.now) ≡ whole_if result t.now }
{
    if t[0] == 0 {
        return false;
    }
    let h = talk_head::head_in(t);
    let size = integers::word_at(t, PAYLOAD);
    (h.kind == 5) & (size <= h.n)
}
