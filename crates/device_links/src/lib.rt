// TP2.0 connections, on any bytes that are lent as the memory: one is opened, sends and receives messages, and is ended. The number is that of a raw
// channel.
#![tactic(auto)]

ghost use Rattle.std.specs.Prelude.{◌≡◌, []};
ghost use Rattle.codes.specs.Code.{code_of, value_of};
ghost use Rattle.machine.specs.Codes.{two_rates};
ghost use Rattle.machine.specs.Channel.{link_open, link_send, link_receive, link_end};
ghost use Rattle.machine.specs.Step.{call};
ghost use Rattle.layout.specs.Promise.{gives};
ghost use Rattle.link_asking.specs.Asking.{asks};
ghost use Rattle.memory.specs.Promise.{outcome};

use codes::Refusal;
use link_asking::Asking;

// A connection begins to open.
pub fn link_open(mem: &mut [u8], channel: u32, asking: Asking) -> Result<(), Refusal>
    ensures { gives (code_of result) 0 [] mem.new ≡ outcome two_rates mem.old (call channel (link_open (asks asking))) }
{
    box_validity::check(mem)?;
    box_links::link_open(mem, channel, asking)
}

// A message to send.
pub fn link_send(mem: &mut [u8], channel: u32, message: &[u8]) -> Result<(), Refusal>
    ensures { gives (code_of result) 0 [] mem.new ≡ outcome two_rates mem.old (call channel (link_send message.now)) }
{
    box_validity::check(mem)?;
    box_links::link_send(mem, channel, message)
}

// Moves the complete message to a buffer; its length.
pub fn link_receive(mem: &mut [u8], channel: u32, buffer: &mut [u8]) -> Result<u32, Refusal>
    ensures { gives (code_of result) (value_of result) buffer.new mem.new ≡ outcome two_rates mem.old (call channel (link_receive buffer.old)) }
{
    box_validity::check(mem)?;
    box_links::link_receive(mem, channel, buffer)
}

// The connection is ended.
pub fn link_end(mem: &mut [u8], channel: u32) -> Result<(), Refusal>
    ensures { gives (code_of result) 0 [] mem.new ≡ outcome two_rates mem.old (call channel link_end) }
{
    box_validity::check(mem)?;
    box_links::link_end(mem, channel)
}
