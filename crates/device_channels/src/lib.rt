// A channel is opened, set up, asked and closed, on any bytes that are lent as the memory: connect, disconnect, get, set, clear, last error.
#![tactic(auto)]

ghost use Rattle.std.specs.Prelude.{◌≡◌, []};
ghost use Rattle.codes.specs.Code.{code_of, value_of};
ghost use Rattle.machine.specs.Codes.{two_rates};
ghost use Rattle.machine.specs.Channel.{disconnect as disconnects};
ghost use Rattle.machine.specs.Channel.{clear as clears};
ghost use Rattle.machine.specs.Channel.{get_parameter, set_parameter, last_error};
ghost use Rattle.machine.specs.Step.{call};
ghost use Rattle.machine.specs.Step.{connect as connects};
ghost use Rattle.layout.specs.Promise.{gives};
ghost use Rattle.memory.specs.Promise.{outcome};

use can::RATES;
use codes::Refusal;

// Opens the channel of a line, at one of the rates lent, and gives its number: for programs that replay a recording of any edition.
pub fn connect_with(
    mem: &mut [u8],
    rates: &[u32],
    line: u32,
    protocol: u32,
    flags: u32,
    rate: u32,
) -> Result<u32, Refusal>
    ensures { gives (code_of result) (value_of result) [] mem.new ≡ outcome rates.now mem.old (connects line protocol flags rate) }
{
    box_validity::check(mem)?;
    box_connecting::connect(mem, rates, line, protocol, flags, rate)
}

// Opens the channel of a line and gives its number.
pub fn connect(
    mem: &mut [u8],
    line: u32,
    protocol: u32,
    flags: u32,
    rate: u32,
) -> Result<u32, Refusal>
    ensures { gives (code_of result) (value_of result) [] mem.new ≡ outcome two_rates mem.old (connects line protocol flags rate) }
{
    let rates = RATES;
    connect_with(mem, &rates, line, protocol, flags, rate)
}

// A parameter's value.
pub fn get(mem: &mut [u8], channel: u32, parameter: u32) -> Result<u32, Refusal>
    ensures { gives (code_of result) (value_of result) [] mem.new ≡ outcome two_rates mem.old (call channel (get_parameter parameter)) }
{
    box_validity::check(mem)?;
    box_channels::get(mem, channel, parameter)
}

// A parameter's new value; a rate is one of the rates lent: for programs that replay a recording of any edition.
pub fn set_with(
    mem: &mut [u8],
    rates: &[u32],
    channel: u32,
    parameter: u32,
    value: u32,
) -> Result<(), Refusal>
    ensures { gives (code_of result) 0 [] mem.new ≡ outcome rates.now mem.old (call channel (set_parameter parameter value)) }
{
    box_validity::check(mem)?;
    box_channels::set(mem, rates, channel, parameter, value)
}

// A parameter's new value.
pub fn set(mem: &mut [u8], channel: u32, parameter: u32, value: u32) -> Result<(), Refusal>
    ensures { gives (code_of result) 0 [] mem.new ≡ outcome two_rates mem.old (call channel (set_parameter parameter value)) }
{
    let rates = RATES;
    set_with(mem, &rates, channel, parameter, value)
}

// Closes a channel.
pub fn disconnect(mem: &mut [u8], channel: u32) -> Result<(), Refusal>
    ensures { gives (code_of result) 0 [] mem.new ≡ outcome two_rates mem.old (call channel disconnects) }
{
    box_validity::check(mem)?;
    box_channels::disconnect(mem, channel)
}

// Empties one kind of what a channel holds.
pub fn clear(mem: &mut [u8], channel: u32, kind: u32) -> Result<(), Refusal>
    ensures { gives (code_of result) 0 [] mem.new ≡ outcome two_rates mem.old (call channel (clears kind)) }
{
    box_validity::check(mem)?;
    box_channels::clear(mem, channel, kind)
}

// What went wrong last on a channel; asking changes nothing.
pub fn last_error(mem: &[u8], channel: u32) -> Result<u32, Refusal>
    ensures { gives (code_of result) (value_of result) [] mem.now ≡ outcome two_rates mem.now (call channel last_error) }
{
    box_validity::check(mem)?;
    box_channels::last_error(mem, channel)
}
