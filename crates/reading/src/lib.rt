// Reading: the oldest records of the receive queue into a buffer, and why no more.
#![tactic(auto)]

ghost use Rattle.std.specs.Prelude.{◌≡◌, List, ℕ, ◌*◌, ◌≤◌, min, eqb, length};
ghost use Rattle.codes.specs.Code.{code_of};
ghost use Rattle.machine.specs.Channel.{read_code};
ghost use Rattle.machine.specs.Channel.{read as read_of};
ghost use Rattle.layout.specs.Promise.{Opened, gives, call_outcome};
ghost use Rattle.reading.specs.Given.{Given, Held};

use codes::{Moved, Refusal};
use places::{QUEUE_SIZE, RECEIVING, RECEIVING_END, RECORD};

// In the receiving part: the lost mark stands behind the queue.
const LOST_IN: usize = QUEUE_SIZE;

// The smaller of two numbers.
pub fn fewest(a: u32, b: u32) -> u32
    ensures { result ≡ min a b }
{
    a.min(b)
}

// Why a read that was asked for n records and gave m gave no more.
#[tactic(auto, unfolding(machine::specs::Channel::read_code))]
pub fn read_code(lost: u8, n: u32, m: u32) -> Result<(), Refusal>
    ensures { code_of result ≡ read_code (eqb 1 lost) n m }
{
    if 1 == lost {
        return Err(Refusal::BufferOverflow);
    }
    if m == n {
        return Ok(());
    }
    if m == 0 {
        return Err(Refusal::BufferEmpty);
    }
    Err(Refusal::Timeout)
}

// The oldest records of a receiving part, at most n, to a buffer: how many, and why no more.
pub fn give<const SIZE: usize, const LOST: usize>(q: &[u8], n: u32, buf: &mut [u8]) -> Moved
    requires { Held SIZE LOST q.now × (SIZE * n ≤ length buf.old) }
    ensures { Given SIZE LOST n q.now buf.old result.count (code_of result.end) buf.new }
{
    let count = fewest(n, integers::wide(q[0]));
    let size = count as usize * SIZE;
    let end = 1 + size;
    octets::copy(&mut buf[0..size], &q[1..end]);
    Moved {
        count,
        end: read_code(q[LOST], n, count),
    }
}

// Read n records into a buffer, on the region of an open channel.
pub fn read_in(r: &mut [u8], n: u32, buf: &mut [u8]) -> Moved
    requires { Opened r.old }
    ensures { (rates : List ℕ) (t : ℕ) → gives (code_of result.end) result.count buf.new r.new ≡ call_outcome rates t r.old (read_of n buf.old) }
{
    if buf.len() < RECORD * (n as usize) {
        return Moved {
            count: 0,
            end: Err(Refusal::NullParameter),
        };
    }
    if n == 0 {
        return Moved {
            count: 0,
            end: Ok(()),
        };
    }
    let q = &mut r[RECEIVING..RECEIVING_END];
    let moved = give::<RECORD, LOST_IN>(q, n, buf);
    queue::drop_oldest(q, moved.count as usize);
    moved
}
