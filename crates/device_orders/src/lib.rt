// Standing orders of a channel, on any bytes that are lent as the memory: its filters and periodics are started and stopped.
#![tactic(auto)]

ghost use Rattle.std.specs.Prelude.{◌≡◌, []};
ghost use Rattle.codes.specs.Code.{code_of, value_of};
ghost use Rattle.machine.specs.Codes.{two_rates};
ghost use Rattle.machine.specs.Channel.{start_filter, start_flow, stop_filter, start_periodic, stop_periodic};
ghost use Rattle.machine.specs.Step.{call};
ghost use Rattle.layout.specs.Promise.{gives};
ghost use Rattle.memory.specs.Promise.{outcome};

use codes::Refusal;

// A filter more; its number.
pub fn start_filter(
    mem: &mut [u8],
    channel: u32,
    kind: u32,
    mask: &[u8],
    pattern: &[u8],
) -> Result<u32, Refusal>
    ensures { gives (code_of result) (value_of result) [] mem.new ≡ outcome two_rates mem.old (call channel (start_filter kind mask.now pattern.now)) }
{
    box_validity::check(mem)?;
    box_orders::start_filter(mem, channel, kind, mask, pattern)
}

// A filter more, with the record of its flow control; its number.
pub fn start_flow_filter(
    mem: &mut [u8],
    channel: u32,
    kind: u32,
    mask: &[u8],
    pattern: &[u8],
    flow: &[u8],
) -> Result<u32, Refusal>
    ensures { gives (code_of result) (value_of result) [] mem.new ≡ outcome two_rates mem.old (call channel (start_flow kind mask.now pattern.now flow.now)) }
{
    box_validity::check(mem)?;
    box_orders::start_flow_filter(mem, channel, kind, mask, pattern, flow)
}

// A filter less.
pub fn stop_filter(mem: &mut [u8], channel: u32, number: u32) -> Result<(), Refusal>
    ensures { gives (code_of result) 0 [] mem.new ≡ outcome two_rates mem.old (call channel (stop_filter number)) }
{
    box_validity::check(mem)?;
    box_orders::stop_filter(mem, channel, number)
}

// A periodic more; its number.
pub fn start_periodic(
    mem: &mut [u8],
    channel: u32,
    message: &[u8],
    interval: u32,
) -> Result<u32, Refusal>
    ensures { gives (code_of result) (value_of result) [] mem.new ≡ outcome two_rates mem.old (call channel (start_periodic message.now interval)) }
{
    box_validity::check(mem)?;
    box_orders::start_periodic(mem, channel, message, interval)
}

// A periodic less.
pub fn stop_periodic(mem: &mut [u8], channel: u32, number: u32) -> Result<(), Refusal>
    ensures { gives (code_of result) 0 [] mem.new ≡ outcome two_rates mem.old (call channel (stop_periodic number)) }
{
    box_validity::check(mem)?;
    box_orders::stop_periodic(mem, channel, number)
}
