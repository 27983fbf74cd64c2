// A segmented message starts on an idle conversation: its first frame's data go into a lent buffer of eight bytes, its payload into the place.
#![tactic(auto)]

ghost use Rattle.std.specs.Prelude.{◌≡◌, ℕ, ◌≤◌, length, drop};
ghost use Rattle.std.specs.Bool.{beq};
ghost use Rattle.machine.specs.Message.{Rec, bit, id_of};
ghost use Rattle.iso.specs.Limits.{id_size, most_payload, in_first};
ghost use Rattle.iso.specs.Iso.{start_of};
ghost use Rattle.iso_layout.specs.Sizes.{talk_size};
ghost use Rattle.framing.specs.Data.{frame_room};
ghost use Rattle.talk_giving.specs.Giving.{Gave};
ghost use Rattle.talk_starting.specs.Starting.{may_start, first_taken};

use iso_places::FLOW_IN;
use talk_head::Head;

// Where in a place its width mark stands; the kinds of a head that is idle and of one whose first frame flies; payload bytes in a first frame.
const WIDE_IN: usize = 1;

const IDLE: u8 = 0;

const OPENS: u8 = 3;

const IN_FIRST: u32 = 6;

// Are two the same?
fn same(a: bool, b: bool) -> bool
    ensures { result ≡ beq a b }
{
    if a { b } else { !b }
}

// Is a conversation idle, and are its width and flow identifier those of a message?
fn may_start(t: &[u8], wide: bool, id: u32) -> bool
    requires { length t.now ≡ talk_size }
    ensures { result ≡ may_start wide id t.now }
{
    let h = talk_head::head_in(t);
    let flow = integers::word_at(t, FLOW_IN);
    let alike = same(wide, 1 == t[WIDE_IN]);
    (h.kind == IDLE) & (alike & (id == flow))
}

// The head of a transmission whose first frame was taken.
fn first_taken() -> Head
    ensures { result ≡ first_taken }
{
    Head {
        kind: OPENS,
        n: IN_FIRST,
        time: 0,
        left: 0,
        gap: 0,
        waits: false,
    }
}

// The first frame of a message that may start on a conversation, and how many bytes it has; 0 where it may not.
pub fn start(t: &mut [u8], wide: bool, id: u32, payload: &[u8], d: &mut [u8]) -> usize
    requires { (length t.old ≡ talk_size) × (length d.old ≡ frame_room) × (in_first ≤ length payload.now) × (length payload.now ≤ most_payload) }
    ensures { ((m : Rec) (k : ℕ) → bit 0x100 m.tx ≡ wide → id_of m.bytes ≡ id → drop id_size m.bytes ≡ payload.now → Gave (λ c. start_of m k c c.transfer) result d.new t.old t.new) × (result ≤ frame_room) }
{
    if t[0] == 0 {
        return 0;
    }
    if may_start(t, wide, id) {
        talk_head::put_head(t, first_taken());
        talk_head::set_payload(t, payload);
        return framing::first(d, payload);
    }
    0
}
