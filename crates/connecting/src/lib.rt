// Connecting: a fresh channel on a line, and its end.
#![tactic(auto)]

ghost use Rattle.std.specs.Prelude.{◌≡◌, List, [], ℕ, ◌<◌, ◌≤◌, T, length};
ghost use Rattle.codes.specs.Code.{code_of, value_of};
ghost use Rattle.machine.specs.Limits.{lines};
ghost use Rattle.machine.specs.Channel.{connect_code, on_connect, disconnect};
ghost use Rattle.layout.specs.Sizes.{region_size, loopback_at};
ghost use Rattle.layout.specs.Memory.{region};
ghost use Rattle.layout.specs.Promise.{gives, Opened, region_gives, call_outcome};
ghost use Rattle.connecting.specs.Opening.{opening};

use codes::Refusal;

// The checks of a connect in the scope's order: its protocol, its flags, and its rate, which is one of those lent.
pub fn connect_code(rates: &[u32], protocol: u32, flags: u32, rate: u32) -> Result<(), Refusal>
    ensures { code_of result ≡ connect_code rates.now protocol flags rate [] }
{
    if protocol != can::PROTOCOL {
        return Err(Refusal::InvalidProtocolId);
    }
    if !can::is_raw_flags(flags) {
        return Err(Refusal::InvalidFlags);
    }
    if !can::is_rate(rates, rate) {
        return Err(Refusal::InvalidBaudrate);
    }
    Ok(())
}

// Opens a closed channel's region, whatever its kind: its mark, its flags and its rate.
pub fn open(r: &mut [u8], flags: u32, rate: u32) -> Result<(), Refusal>
    requires { loopback_at ≤ length r.old }
    ensures { (code_of result, r.new) ≡ opening flags rate r.old }
{
    if r[0] != 0 {
        return Err(Refusal::ChannelInUse);
    }
    integers::put_word(&mut r[places::FLAGS..places::RATE], flags);
    integers::put_word(&mut r[places::RATE..places::LOOPBACK], rate);
    r[0] = 1;
    Ok(())
}

// Connect: a closed channel's region becomes that of a fresh one.
pub fn connect_in(
    r: &mut [u8],
    rates: &[u32],
    line: u32,
    protocol: u32,
    flags: u32,
    rate: u32,
) -> Result<u32, Refusal>
    requires { (length r.old ≡ region_size) × T (region.valid r.old) × (line < lines) }
    ensures { gives (code_of result) (value_of result) [] r.new ≡ region_gives (on_connect rates.now (region.get r.old) line protocol flags rate) }
{
    connect_code(rates, protocol, flags, rate)?;
    open(r, flags, rate)?;
    Ok(line + 1)
}

// Disconnect: the region becomes zeros.
pub fn disconnect_in(r: &mut [u8])
    requires { Opened r.old }
    ensures { (rates : List ℕ) (t : ℕ) → gives 0 0 [] r.new ≡ call_outcome rates t r.old disconnect }
{
    octets::zero(r);
}
