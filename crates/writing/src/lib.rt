// Writing: records queued behind those that a channel holds to be sent.
#![tactic(auto)]

ghost use Rattle.std.specs.Prelude.{◌≡◌, List, [], ℕ, ◌≤◌, length};
ghost use Rattle.codes.specs.Code.{code_of};
ghost use Rattle.machine.specs.Channel.{write as write_of};
ghost use Rattle.layout.specs.Promise.{gives, Speaker, call_outcome};
ghost use Rattle.writing.specs.Store.{Queued, Stopped, Kind, StorePart, Lent, raw};

use codes::{Moved, Refusal};
use places::RECORD;

// The most written records.
const MOST: u8 = places::MOST_WRITTEN as u8;

// A way of writing: how one message is queued behind those held.
pub trait Queueing {
    ghost kind: { Self → Kind };

    // One message behind those held, clean, where its checks find it good and there is room.
    fn queue(&self, store: &mut [u8], m: &[u8]) -> Result<(), Refusal>
        requires { StorePart (kind self.now) store.old × ((kind self.now).size ≤ length m.now) }
        ensures { Queued (kind self.now).store (kind self.now).rule store.old m.now (code_of result) store.new };
}

// Writing raw CAN on a connection of these flags.
#[derive(Clone, Copy)]
struct Raw {
    flags: u32,
}

impl Queueing for Raw {
    ghost kind = { λ x. raw x.flags };

    fn queue(&self, store: &mut [u8], m: &[u8]) -> Result<(), Refusal> {
        message::message_code(m, self.flags)?;
        let held = store[0];
        if held >= MOST {
            return Err(Refusal::BufferFull);
        }
        let at = 1 + RECORD * held as usize;
        let end = at + RECORD;
        message::put_clean(&mut store[at..end], m);
        store[0] = held + 1;
        Ok(())
    }
}

// The first n records of a buffer, in order, until one is refused.
pub fn queue_all<const SIZE: usize, Q: Queueing>(
    by: &Q,
    store: &mut [u8],
    n: u32,
    buffer: &[u8],
) -> Moved
    requires { Lent (Q.kind by.now) SIZE n store.old buffer.now }
    ensures { Stopped (Q.kind by.now).store ((Q.kind by.now).writes n buffer.now ((Q.kind by.now).store.get store.old) 0) (code_of result.end) result.count store.new }
{
    for i in 0..n {
        let at = SIZE * i as usize;
        if let Err(refusal) = by.queue(store, &buffer[at..]) {
            return Moved {
                count: i,
                end: Err(refusal),
            };
        }
    }
    Moved {
        count: n,
        end: Ok(()),
    }
}

// Write: the first n records of the buffer, in order, until one is refused or 16 are held.
pub fn write(r: &mut [u8], n: u32, buffer: &[u8]) -> Moved
    requires { Speaker r.old }
    ensures { (rates : List ℕ) (t : ℕ) → gives (code_of result.end) result.count [] r.new ≡ call_outcome rates t r.old (write_of n buffer.now) }
{
    if buffer.len() < RECORD * n as usize {
        return Moved {
            count: 0,
            end: Err(Refusal::NullParameter),
        };
    }
    let raw = Raw {
        flags: integers::word_at(r, places::FLAGS),
    };
    queue_all::<RECORD, Raw>(&raw, &mut r[places::WRITTEN..places::FLIGHT], n, buffer)
}
