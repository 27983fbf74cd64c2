// Reading on an ISO 15765 channel: the oldest records of the receive queue into a buffer, and why no more.
#![tactic(auto)]

ghost use Rattle.std.specs.Prelude.{◌≡◌, List, ℕ};
ghost use Rattle.codes.specs.Code.{code_of};
ghost use Rattle.machine.specs.Channel.{read as read_of};
ghost use Rattle.layout.specs.Promise.{gives};
ghost use Rattle.iso_layout.specs.Promise.{IsoOpened, iso_outcome};

use codes::{Moved, Refusal};
use iso_places::{HEARD, HEARD_SIZE, LAST, RECORD};

// In the receiving part: the lost mark stands behind the queue.
const LOST_IN: usize = HEARD_SIZE;

// Read n records into a buffer, on the region of an open channel.
// It is written out beside the raw one: one function over the part, the size and the dropping would take five parameters and a closure's clauses for six lines.
pub fn read_in(r: &mut [u8], n: u32, buf: &mut [u8]) -> Moved
    requires { IsoOpened r.old }
    ensures { (rates : List ℕ) (t : ℕ) → gives (code_of result.end) result.count buf.new r.new ≡ iso_outcome rates t r.old (read_of n buf.old) }
{
    if buf.len() < RECORD * (n as usize) {
        return Moved {
            count: 0,
            end: Err(Refusal::NullParameter),
        };
    }
    if n == 0 {
        return Moved {
            count: 0,
            end: Ok(()),
        };
    }
    let q = &mut r[HEARD..LAST];
    let moved = reading::give::<RECORD, LOST_IN>(q, n, buf);
    iso_queue::drop_oldest(q, moved.count as usize);
    moved
}
