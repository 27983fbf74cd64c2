// A channel's set-up saved and loaded, on any bytes that are lent as the memory. The number is that of a raw channel.
#![tactic(auto)]

ghost use Rattle.std.specs.Prelude.{◌≡◌, []};
ghost use Rattle.codes.specs.Code.{code_of, value_of};
ghost use Rattle.machine.specs.Codes.{two_rates};
ghost use Rattle.machine.specs.Channel.{save_setup, load_setup};
ghost use Rattle.machine.specs.Step.{call};
ghost use Rattle.layout.specs.Promise.{gives};
ghost use Rattle.memory.specs.Promise.{outcome};

use can::RATES;
use codes::Refusal;

// Writes a channel's filters, periodics and configuration to a buffer, as a store of version 2; how many bytes it has.
pub fn save(mem: &mut [u8], channel: u32, buffer: &mut [u8]) -> Result<u32, Refusal>
    ensures { gives (code_of result) (value_of result) buffer.new mem.new ≡ outcome two_rates mem.old (call channel (save_setup buffer.old)) }
{
    box_validity::check(mem)?;
    box_setups::save(mem, channel, buffer)
}

// Replaces a channel's filters, periodics and configuration by those of a store, or changes nothing.
pub fn load(mem: &mut [u8], channel: u32, store: &[u8]) -> Result<(), Refusal>
    ensures { gives (code_of result) 0 [] mem.new ≡ outcome two_rates mem.old (call channel (load_setup store.now)) }
{
    box_validity::check(mem)?;
    let rates = RATES;
    box_setups::load(mem, &rates, channel, store)
}
