// Lists of parameters, on any bytes that are lent as the memory: set and get.
#![tactic(auto)]

ghost use Rattle.std.specs.Prelude.{◌≡◌, List, [], ℕ, T};
ghost use Rattle.codes.specs.Code.{code_of, value_of};
ghost use Rattle.machine.specs.Codes.{two_rates};
ghost use Rattle.machine.specs.Channel.{flat, get_parameter, set_parameter, get_list, set_list};
ghost use Rattle.machine.specs.Step.{call};
ghost use Rattle.layout.specs.Promise.{gives};
ghost use Rattle.memory.specs.Memory.{valid};
ghost use Rattle.memory.specs.Promise.{outcome};
ghost use Rattle.device_lists.specs.Lists.{listed, Begun};

use can::RATES;
use codes::Refusal;
use seats::Seat;

// A parameter and its value.
#[repr(C)]
#[derive(Drop)]
pub struct Pair {
    pub parameter: u32,
    pub value: u32,
}

// The most pairs of a list.
const MOST: usize = 16;

// Begins a list of n pairs: what refuses it before any pair is noted where the channel is open.
fn begin(mem: &mut [u8], channel: u32, n: usize) -> Result<(), Refusal>
    ensures { Begun mem.old channel n result mem.new }
{
    box_validity::check(mem)?;
    let Some(seat) = seats::seat_of(mem, channel) else {
        return Err(Refusal::InvalidChannelId);
    };
    if n <= MOST {
        return Ok(());
    }
    match seat {
        Seat::Raw(at) => noting::note(mem, at, u32::from(Refusal::NullParameter)),
        Seat::Iso(at) => iso_settings::note(mem, at, u32::from(Refusal::NullParameter)),
    }
    Err(Refusal::NullParameter)
}

// Sets one parameter, on a memory known to be valid.
#[tactic(auto, unfolding(machine::specs::Codes::two_rates))]
fn set_one(mem: &mut [u8], channel: u32, parameter: u32, value: u32) -> Result<(), Refusal>
    requires { T (valid mem.old) }
    ensures { gives (code_of result) 0 [] mem.new ≡ outcome two_rates mem.old (call channel (set_parameter parameter value)) }
{
    let rates = RATES;
    box_channels::set(mem, &rates, channel, parameter, value)
}

// Gets one parameter, on a memory known to be valid.
fn get_one(mem: &mut [u8], channel: u32, parameter: u32) -> Result<u32, Refusal>
    requires { T (valid mem.old) }
    ensures { gives (code_of result) (value_of result) [] mem.new ≡ outcome two_rates mem.old (call channel (get_parameter parameter)) }
{
    box_channels::get(mem, channel, parameter)
}

// Sets the pairs in order, up to the first refused one.
pub fn set_list(mem: &mut [u8], channel: u32, pairs: &[Pair]) -> Result<(), Refusal>
    ensures { gives (code_of result) 0 [] mem.new ≡ outcome two_rates mem.old (call channel (set_list (listed pairs.now))) }
{
    begin(mem, channel, pairs.len())?;
    for pair in pairs {
        set_one(mem, channel, pair.parameter, pair.value)?;
    }
    Ok(())
}

// Gets the pairs in order, each value in its own pair, up to the first refused one.
pub fn get_list(mem: &mut [u8], channel: u32, pairs: &mut [Pair]) -> Result<(), Refusal>
    ensures { gives (code_of result) 0 (flat (listed pairs.new)) mem.new ≡ outcome two_rates mem.old (call channel (get_list (listed pairs.old))) }
{
    begin(mem, channel, pairs.len())?;
    for pair in pairs.iter_mut() {
        pair.value = get_one(mem, channel, pair.parameter)?;
    }
    Ok(())
}
