// TP2.0 connections, on a memory of the whole box that is known to be valid: one is opened, sends and receives messages, and is ended. The number is that
// of a raw channel, which is no listener.
#![tactic(auto)]

ghost use Rattle.std.specs.Prelude.{◌≡◌, List, [], ℕ, T};
ghost use Rattle.codes.specs.Code.{code_of, value_of};
ghost use Rattle.machine.specs.Channel.{link_open, link_send, link_receive, link_end};
ghost use Rattle.machine.specs.Step.{call};
ghost use Rattle.layout.specs.Promise.{gives};
ghost use Rattle.link_asking.specs.Asking.{asks};
ghost use Rattle.memory.specs.Memory.{valid};
ghost use Rattle.memory.specs.Promise.{outcome};

use calling::Listeners;
use codes::Refusal;
use link_asking::Asking;
use places::REGION;

// A connection begins to open.
pub fn link_open(mem: &mut [u8], channel: u32, asking: Asking) -> Result<(), Refusal>
    requires { T (valid mem.old) }
    ensures { (rates : List ℕ) → gives (code_of result) 0 [] mem.new ≡ outcome rates mem.old (call channel (link_open (asks asking))) }
{
    calling::on_raw_channel(
        mem,
        channel,
        Listeners::Refuse,
        |r| linking::open(r, asking),
    )
}

// A message to send.
pub fn link_send(mem: &mut [u8], channel: u32, message: &[u8]) -> Result<(), Refusal>
    requires { T (valid mem.old) }
    ensures { (rates : List ℕ) → gives (code_of result) 0 [] mem.new ≡ outcome rates mem.old (call channel (link_send message.now)) }
{
    calling::on_raw_channel(
        mem,
        channel,
        Listeners::Refuse,
        |r| linking::send(r, message),
    )
}

// Moves the complete message to a buffer; its length.
pub fn link_receive(mem: &mut [u8], channel: u32, buffer: &mut [u8]) -> Result<u32, Refusal>
    requires { T (valid mem.old) }
    ensures { (rates : List ℕ) → gives (code_of result) (value_of result) buffer.new mem.new ≡ outcome rates mem.old (call channel (link_receive buffer.old)) }
{
    let Some(at) = seats::raw_seat_of(mem, channel) else {
        return Err(Refusal::InvalidChannelId);
    };
    if seats::listens(mem, at) {
        noting::note(mem, at, Refusal::NotSupported as u32);
        return Err(Refusal::NotSupported);
    }
    let received = linking::receive(&mut mem[at..at + REGION], buffer);
    noting::note(mem, at, codes::code_of(received));
    received
}

// The connection is ended.
pub fn link_end(mem: &mut [u8], channel: u32) -> Result<(), Refusal>
    requires { T (valid mem.old) }
    ensures { (rates : List ℕ) → gives (code_of result) 0 [] mem.new ≡ outcome rates mem.old (call channel link_end) }
{
    calling::on_raw_channel(mem, channel, Listeners::Refuse, |r| linking::end(r))
}
