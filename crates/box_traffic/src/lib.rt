// A channel's traffic, on a memory of the whole box that is known to be valid: write, read, take, sent.
#![tactic(auto)]

ghost use Rattle.std.specs.Prelude.{◌≡◌, List, [], ℕ, T};
ghost use Rattle.codes.specs.Code.{code_of};
ghost use Rattle.machine.specs.Channel.{write as writes};
ghost use Rattle.machine.specs.Channel.{read as reads};
ghost use Rattle.machine.specs.Channel.{take_next};
ghost use Rattle.machine.specs.Channel.{sent as sent_of};
ghost use Rattle.machine.specs.Step.{call};
ghost use Rattle.layout.specs.Promise.{gives};
ghost use Rattle.memory.specs.Memory.{valid};
ghost use Rattle.memory.specs.Promise.{outcome};

use calling::Listeners;
use codes::{Moved, Refusal};
use seats::Seat;

// Queues records to send, in order, until one is refused. A listener queues none.
pub fn write(mem: &mut [u8], channel: u32, n: u32, buffer: &[u8]) -> Moved
    requires { T (valid mem.old) }
    ensures { (rates : List ℕ) → gives (code_of result.end) result.count [] mem.new ≡ outcome rates mem.old (call channel (writes n buffer.now)) }
{
    match seats::seat_of(mem, channel) {
        None => Moved {
            count: 0,
            end: Err(Refusal::InvalidChannelId),
        },
        Some(Seat::Raw(at)) => {
            if seats::listens(mem, at) {
                noting::note(mem, at, Refusal::NotSupported as u32);
                return Moved {
                    count: 0,
                    end: Err(Refusal::NotSupported),
                };
            }
            let moved = writing::write(&mut mem[at..at + places::REGION], n, buffer);
            noting::note(mem, at, codes::code_of(moved.end));
            moved
        }
        Some(Seat::Iso(at)) => {
            let moved = iso_writing::write(&mut mem[at..at + iso_places::REGION], n, buffer);
            iso_settings::note(mem, at, codes::code_of(moved.end));
            moved
        }
    }
}

// Moves the oldest received records to a buffer.
pub fn read(mem: &mut [u8], channel: u32, n: u32, buffer: &mut [u8]) -> Moved
    requires { T (valid mem.old) }
    ensures { (rates : List ℕ) → gives (code_of result.end) result.count buffer.new mem.new ≡ outcome rates mem.old (call channel (reads n buffer.old)) }
{
    match seats::seat_of(mem, channel) {
        None => Moved {
            count: 0,
            end: Err(Refusal::InvalidChannelId),
        },
        Some(Seat::Raw(at)) => {
            let moved = reading::read_in(&mut mem[at..at + places::REGION], n, buffer);
            noting::note(mem, at, codes::code_of(moved.end));
            moved
        }
        Some(Seat::Iso(at)) => {
            let moved = iso_reading::read_in(&mut mem[at..at + iso_places::REGION], n, buffer);
            iso_settings::note(mem, at, codes::code_of(moved.end));
            moved
        }
    }
}

// The frame to send next, to a buffer; it stays in flight. A listener has none.
pub fn take(mem: &mut [u8], channel: u32, buffer: &mut [u8]) -> Result<(), Refusal>
    requires { T (valid mem.old) }
    ensures { (rates : List ℕ) → gives (code_of result) 0 buffer.new mem.new ≡ outcome rates mem.old (call channel (take_next buffer.old)) }
{
    match seats::seat_of(mem, channel) {
        None => Err(Refusal::InvalidChannelId),
        Some(Seat::Raw(at)) => {
            if seats::listens(mem, at) {
                noting::note(mem, at, Refusal::NotSupported as u32);
                return Err(Refusal::NotSupported);
            }
            let taken = taking::take(&mut mem[at..at + places::REGION], buffer);
            noting::note(mem, at, codes::code_of(taken));
            taken
        }
        Some(Seat::Iso(at)) => {
            let taken = iso_taking::take(&mut mem[at..at + iso_places::REGION], buffer);
            iso_settings::note(mem, at, codes::code_of(taken));
            taken
        }
    }
}

// The frame in flight is on the line. A listener has none.
pub fn sent(mem: &mut [u8], channel: u32) -> Result<(), Refusal>
    requires { T (valid mem.old) }
    ensures { (rates : List ℕ) → gives (code_of result) 0 [] mem.new ≡ outcome rates mem.old (call channel sent_of) }
{
    let now = integers::word_at(mem, 0);
    calling::on_channel(
        mem,
        channel,
        Listeners::Refuse,
        |r| landing::sent(r, now),
        |r| iso_landing::sent(r, now),
    )
}
