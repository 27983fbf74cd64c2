// The configuration of a channel, whatever its kind: flags, rate and loopback mark, nine bytes lent; its parameters got and set.
#![tactic(auto)]

ghost use Rattle.std.specs.Prelude.{◌≡◌, T, length};
ghost use Rattle.codes.specs.Code.{code_of, value_of};
ghost use Rattle.machine.specs.Channel.{get_in, set_in};
ghost use Rattle.layout.specs.Sizes.{config_size};
ghost use Rattle.layout.specs.Memory.{config};

use codes::Refusal;

// In a configuration, behind the flags.
const RATE_IN: usize = places::NUMBER;

const LOOPBACK_IN: usize = RATE_IN + places::NUMBER;

// Get: the rate in force or the loopback mark.
pub fn get(c: &[u8], parameter: u32) -> Result<u32, Refusal>
    requires { (length c.now ≡ config_size) × T (config.valid c.now) }
    ensures { get_in (config.get c.now) parameter ≡ (code_of result, value_of result) }
{
    if parameter == 1 {
        return Ok(integers::word_at(c, RATE_IN));
    }
    if parameter == 3 {
        return Ok(integers::wide(c[LOOPBACK_IN]));
    }
    Err(Refusal::NotSupported)
}

// Set: a rate of those lent, or loopback 0 or 1.
pub fn set(c: &mut [u8], rates: &[u32], parameter: u32, value: u32) -> Result<(), Refusal>
    requires { (length c.old ≡ config_size) × T (config.valid c.old) }
    ensures { (code_of result ≡ (set_in rates.now (config.get c.old) parameter value).0) × (c.new ≡ config.put (set_in rates.now (config.get c.old) parameter value).1) }
{
    if parameter == 1 {
        if !can::is_rate(rates, value) {
            return Err(Refusal::InvalidIoctlValue);
        }
        integers::put_word(&mut c[RATE_IN..LOOPBACK_IN], value);
        return Ok(());
    }
    if parameter == 3 {
        if value > 1 {
            return Err(Refusal::InvalidIoctlValue);
        }
        c[LOOPBACK_IN] = value as u8;
        return Ok(());
    }
    Err(Refusal::NotSupported)
}
