// A channel's traffic, on any bytes that are lent as the memory: write, read, take, sent.
#![tactic(auto)]

ghost use Rattle.std.specs.Prelude.{◌≡◌, []};
ghost use Rattle.codes.specs.Code.{code_of};
ghost use Rattle.machine.specs.Codes.{two_rates};
ghost use Rattle.machine.specs.Channel.{write as writes};
ghost use Rattle.machine.specs.Channel.{read as reads};
ghost use Rattle.machine.specs.Channel.{take_next};
ghost use Rattle.machine.specs.Channel.{sent as sent_of};
ghost use Rattle.machine.specs.Step.{call};
ghost use Rattle.layout.specs.Promise.{gives};
ghost use Rattle.memory.specs.Promise.{outcome};

use codes::{Moved, Refusal};

// Queues records to send, in order, until one is refused.
pub fn write(mem: &mut [u8], channel: u32, n: u32, buffer: &[u8]) -> Moved
    ensures { gives (code_of result.end) result.count [] mem.new ≡ outcome two_rates mem.old (call channel (writes n buffer.now)) }
{
    if let Err(refusal) = box_validity::check(mem) {
        return Moved {
            count: 0,
            end: Err(refusal),
        };
    }
    box_traffic::write(mem, channel, n, buffer)
}

// Moves the oldest received records to a buffer.
pub fn read(mem: &mut [u8], channel: u32, n: u32, buffer: &mut [u8]) -> Moved
    ensures { gives (code_of result.end) result.count buffer.new mem.new ≡ outcome two_rates mem.old (call channel (reads n buffer.old)) }
{
    if let Err(refusal) = box_validity::check(mem) {
        return Moved {
            count: 0,
            end: Err(refusal),
        };
    }
    box_traffic::read(mem, channel, n, buffer)
}

// The frame to send next, to a buffer; it stays in flight.
pub fn take(mem: &mut [u8], channel: u32, buffer: &mut [u8]) -> Result<(), Refusal>
    ensures { gives (code_of result) 0 buffer.new mem.new ≡ outcome two_rates mem.old (call channel (take_next buffer.old)) }
{
    box_validity::check(mem)?;
    box_traffic::take(mem, channel, buffer)
}

// The frame in flight is on the line.
pub fn sent(mem: &mut [u8], channel: u32) -> Result<(), Refusal>
    ensures { gives (code_of result) 0 [] mem.new ≡ outcome two_rates mem.old (call channel sent_of) }
{
    box_validity::check(mem)?;
    box_traffic::sent(mem, channel)
}
