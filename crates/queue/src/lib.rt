// The receive queue of an open channel: a record more, or the lost mark; the oldest gone.
#![tactic(auto)]

ghost use Rattle.std.specs.Prelude.{◌≡◌, ◌++◌, ℕ, ◌≤◌, T, length, get_or};
ghost use Rattle.machine.specs.Limits.{most_bytes, most_to_read};
ghost use Rattle.machine.specs.Message.{id_bytes, received};
ghost use Rattle.layout.specs.Sizes.{receiving_size};
ghost use Rattle.layout.specs.Memory.{receiving_part, region};
ghost use Rattle.layout.specs.Promise.{Opened};
ghost use Rattle.queue.specs.Queue.{arrived, without_oldest};

use places::{MOST_TO_READ, QUEUE_SIZE, RECEIVING, RECEIVING_END, RECORD};

// The most records that are held; in the receiving part the lost mark stands behind the queue.
const MOST: u8 = MOST_TO_READ as u8;

const LOST_IN: usize = QUEUE_SIZE;

// The record of a frame with its RxStatus arrives: it is the last, or where 32 are held it is dropped and the lost mark is set.
pub fn arrive(r: &mut [u8], clock: u32, rx: u32, id: u32, bytes: &[u8])
    requires { Opened r.old × (length bytes.now ≤ most_bytes) }
    ensures { r.new ≡ region.put (arrived (received clock rx (id_bytes id ++ bytes.now)) (region.get r.old)) }
{
    let q = &mut r[RECEIVING..RECEIVING_END];
    let held = q[0];
    if held < MOST {
        let at = 1 + held as usize * RECORD;
        let end = at + RECORD;
        records::put_received(&mut q[at..end], clock, rx, id, bytes);
        q[0] = held + 1;
        return;
    }
    q[LOST_IN] = 1;
}

// The m oldest records of a receiving part go: the others move to the front, zeros behind them. The lost mark is cleared.
pub fn drop_oldest(q: &mut [u8], m: usize)
    requires { (length q.old ≡ receiving_size) × (m ≤ get_or q.old 0 0) × (get_or q.old 0 0 ≤ most_to_read) }
    ensures { (flags : ℕ) → T ((receiving_part flags).valid q.old) → q.new ≡ (receiving_part flags).put (without_oldest m ((receiving_part flags).get q.old)) }
{
    let held = q[0];
    let end = 1 + held as usize * RECORD;
    octets::move_down(&mut q[1..end], m * RECORD);
    q[0] = held - m as u8;
    q[LOST_IN] = 0;
}
