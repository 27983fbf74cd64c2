// The receive queue of an ISO 15765 channel: a record more, or the lost mark; the oldest gone.
#![tactic(auto)]

ghost use Rattle.std.specs.Prelude.{◌≡◌, [], ◌∷◌, ◌++◌, ℕ, ◌+◌, ◌≤◌, T, length, get_or};
ghost use Rattle.machine.specs.Message.{id_bytes, received};
ghost use Rattle.iso.specs.Limits.{most_heard, most_payload};
ghost use Rattle.iso.specs.Iso.{arrive_iso};
ghost use Rattle.iso_layout.specs.Sizes.{heard_size};
ghost use Rattle.iso_layout.specs.Region.{heard_part};
ghost use Rattle.queue.specs.Queue.{without_oldest};

use iso_places::{HEARD_SIZE, MOST_HEARD, RECORD};

// The most records that are held; in the receiving part the lost mark stands behind the queue.
const MOST: u8 = MOST_HEARD as u8;

const LOST_IN: usize = HEARD_SIZE;

// What is received with its RxStatus arrives: it is the last, or where 8 are held it is dropped and the lost mark is set.
pub fn arrive(q: &mut [u8], clock: u32, rx: u32, id: u32, payload: &[u8])
    requires { (length q.old ≡ heard_size + 1) × (get_or q.old 0 0 ≤ most_heard) × (length payload.now ≤ most_payload) }
    ensures { (flags : ℕ) → T ((heard_part flags).valid q.old) → q.new ≡ (heard_part flags).put (arrive_iso ((heard_part flags).get q.old) (received clock rx (id_bytes id ++ payload.now) ∷ [])) }
{
    let held = q[0];
    if held < MOST {
        let at = 1 + held as usize * RECORD;
        let end = at + RECORD;
        iso_records::put_received(&mut q[at..end], clock, rx, id, payload);
        q[0] = held + 1;
        return;
    }
    q[LOST_IN] = 1;
}

// The m oldest records of a receiving part go: the others move to the front, zeros behind them. The lost mark is cleared.
pub fn drop_oldest(q: &mut [u8], m: usize)
    requires { (length q.old ≡ heard_size + 1) × (m ≤ get_or q.old 0 0) × (get_or q.old 0 0 ≤ most_heard) }
    ensures { (flags : ℕ) → T ((heard_part flags).valid q.old) → q.new ≡ (heard_part flags).put (without_oldest m ((heard_part flags).get q.old)) }
{
    let held = q[0];
    let end = 1 + held as usize * RECORD;
    octets::move_down(&mut q[1..end], m * RECORD);
    q[0] = held - m as u8;
    q[LOST_IN] = 0;
}
