// A channel is set up, asked and closed, on a memory of the whole box that is known to be valid: disconnect, get, set, clear, last error.
#![tactic(auto)]

ghost use Rattle.std.specs.Prelude.{◌≡◌, List, [], ℕ, T};
ghost use Rattle.codes.specs.Code.{code_of, value_of};
ghost use Rattle.machine.specs.Channel.{disconnect as disconnects};
ghost use Rattle.machine.specs.Channel.{clear as clears};
ghost use Rattle.machine.specs.Channel.{get_parameter, set_parameter, last_error};
ghost use Rattle.machine.specs.Step.{call};
ghost use Rattle.layout.specs.Promise.{gives};
ghost use Rattle.memory.specs.Memory.{valid};
ghost use Rattle.memory.specs.Promise.{outcome};

use calling::Listeners;
use codes::Refusal;
use seats::Seat;

// Closes a channel: its region becomes zeros.
pub fn disconnect(mem: &mut [u8], channel: u32) -> Result<(), Refusal>
    requires { T (valid mem.old) }
    ensures { (rates : List ℕ) → gives (code_of result) 0 [] mem.new ≡ outcome rates mem.old (call channel disconnects) }
{
    calling::on_channel(
        mem,
        channel,
        Listeners::Serve,
        |r| {
            connecting::disconnect_in(r);
            Ok(())
        },
        |r| {
            iso_connecting::disconnect_in(r);
            Ok(())
        },
    )
}

// Empties one kind of what a channel holds.
pub fn clear(mem: &mut [u8], channel: u32, kind: u32) -> Result<(), Refusal>
    requires { T (valid mem.old) }
    ensures { (rates : List ℕ) → gives (code_of result) 0 [] mem.new ≡ outcome rates mem.old (call channel (clears kind)) }
{
    calling::on_channel(
        mem,
        channel,
        Listeners::Serve,
        |r| settings::clear_in(r, kind),
        |r| iso_clearing::clear_in(r, kind),
    )
}

// A parameter's value.
pub fn get(mem: &mut [u8], channel: u32, parameter: u32) -> Result<u32, Refusal>
    requires { T (valid mem.old) }
    ensures { (rates : List ℕ) → gives (code_of result) (value_of result) [] mem.new ≡ outcome rates mem.old (call channel (get_parameter parameter)) }
{
    calling::on_channel(
        mem,
        channel,
        Listeners::Serve,
        |r| settings::get_in(r, parameter),
        |r| iso_settings::get_in(r, parameter),
    )
}

// A parameter's new value; a rate is one of the rates.
pub fn set(
    mem: &mut [u8],
    rates: &[u32],
    channel: u32,
    parameter: u32,
    value: u32,
) -> Result<(), Refusal>
    requires { T (valid mem.old) }
    ensures { gives (code_of result) 0 [] mem.new ≡ outcome rates.now mem.old (call channel (set_parameter parameter value)) }
{
    calling::on_channel(
        mem,
        channel,
        Listeners::Serve,
        |r| settings::set_in(r, rates, parameter, value),
        |r| iso_settings::set_in(r, rates, parameter, value),
    )
}

// What went wrong last on a channel; asking changes nothing.
pub fn last_error(mem: &[u8], channel: u32) -> Result<u32, Refusal>
    requires { T (valid mem.now) }
    ensures { (rates : List ℕ) → gives (code_of result) (value_of result) [] mem.now ≡ outcome rates mem.now (call channel last_error) }
{
    match seats::seat_of(mem, channel) {
        None => Err(Refusal::InvalidChannelId),
        Some(Seat::Raw(at)) => Ok(noting::last_in(&mem[at..at + places::REGION])),
        Some(Seat::Iso(at)) => Ok(iso_settings::last_in(&mem[at..at + iso_places::REGION])),
    }
}
