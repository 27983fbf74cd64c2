// A conversation some microseconds later: one second without the awaited frame drops its transfer, and STmin runs out.
#![tactic(auto)]

ghost use Rattle.std.specs.Prelude.{◌≡◌, List, ℕ, T, length};
ghost use Rattle.codec.specs.Code.{slot};
ghost use Rattle.iso.specs.Iso.{Transfer, turned_slot, later_transfer};
ghost use Rattle.iso_layout.specs.Sizes.{talk_size};
ghost use Rattle.iso_layout.specs.Region.{talk_cell};
ghost use Rattle.talk_head.specs.Headed.{Tells, remains};
ghost use Rattle.talk_times.specs.Timed.{timed, ended};

use talk_head::Head;

// One second, in microseconds.
const SECOND: u64 = 1_000_000;

// A head with another time.
fn timed_head(h: Head, time: u32) -> Head
    ensures { result ≡ timed h time }
{
    Head {
        kind: h.kind,
        n: h.n,
        time,
        left: h.left,
        gap: h.gap,
        waits: h.waits,
    }
}

// The head of a transfer that waits for a frame, with the time that it has waited: after one second that of none.
fn waited(h: Head, us: u32) -> Head
    ensures { result ≡ ended h us }
{
    let run = h.time as u64 + us as u64;
    if run < SECOND {
        return timed_head(h, run as u32);
    }
    Head {
        kind: 0,
        n: 0,
        time: 0,
        left: 0,
        gap: 0,
        waits: false,
    }
}

// The head of a transfer, some microseconds later.
pub fn later(h: Head, us: u32) -> Head
    ensures { (b : List ℕ) (x : Transfer) → Tells h b x → Tells result (remains result b) (later_transfer us x) }
{
    if (h.kind == 2) | (h.kind == 4) {
        return waited(h, us);
    }
    if h.kind == 6 {
        let wait = integers::less(h.time, us);
        return timed_head(h, wait);
    }
    h
}

// A conversation's place, some microseconds later. Where it is free or idle there is nothing to do.
pub fn later_in(t: &mut [u8], us: u32)
    requires { length t.old ≡ talk_size }
    ensures { (flags : ℕ) → T ((slot (talk_cell flags)).valid t.old) → t.new ≡ (slot (talk_cell flags)).put (turned_slot (λ c. later_transfer us c.transfer) ((slot (talk_cell flags)).get t.old)) }
{
    if t[0] == 0 {
        return;
    }
    let h = talk_head::head_in(t);
    if h.kind < 2 {
        return;
    }
    let next = later(h, us);
    talk_head::settle(t, next);
}
