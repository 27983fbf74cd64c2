// Connect, on a memory of the whole box that is known to be valid: the protocol tells which of a line's two channels is opened.
#![tactic(auto)]

ghost use Rattle.std.specs.Prelude.{◌≡◌, List, [], ℕ, ◌<◌, T, eqb, if◌then◌else◌};
ghost use Rattle.std.proofs.Math.Option.{none};
ghost use Rattle.codes.specs.Code.{code_of, value_of};
ghost use Rattle.machine.specs.Limits.{lines, can_protocol};
ghost use Rattle.machine.specs.Channel.{connect_code};
ghost use Rattle.machine.specs.Step.{connect as connects};
ghost use Rattle.layout.specs.Promise.{gives};
ghost use Rattle.iso.specs.Limits.{iso_protocol};
ghost use Rattle.iso.specs.Iso.{iso_connect_code};
ghost use Rattle.whole.specs.Device.{connected};
ghost use Rattle.memory.specs.Memory.{valid};
ghost use Rattle.memory.specs.Promise.{outcome};

use box_places::ISO_REGIONS;
use codes::Refusal;

// The code that alone is noted.
const IN_USE: u32 = Refusal::ChannelInUse as u32;

// Opens the raw channel of a line; one in use notes it.
// Beside `connect_iso`: a function for both would take a size, what opens, what notes and what these promise, longer than the two.
fn connect_raw(
    mem: &mut [u8],
    rates: &[u32],
    line: u32,
    flags: u32,
    rate: u32,
) -> Result<u32, Refusal>
    requires { T (valid mem.old) × (line < lines) }
    ensures { gives (code_of result) (value_of result) [] mem.new ≡ outcome rates.now mem.old (connects line can_protocol flags rate) }
{
    let a = places::REGIONS + line as usize * places::REGION;
    let told = connecting::connect_in(
        &mut mem[a..a + places::REGION],
        rates,
        line,
        can::PROTOCOL,
        flags,
        rate,
    );
    let code = codes::code_of(told);
    if code == IN_USE {
        noting::note(mem, a, code);
    }
    told
}

// Opens the ISO 15765 channel of a line; one in use notes it.
fn connect_iso(
    mem: &mut [u8],
    rates: &[u32],
    line: u32,
    flags: u32,
    rate: u32,
) -> Result<u32, Refusal>
    requires { T (valid mem.old) × (line < lines) }
    ensures { gives (code_of result) (value_of result) [] mem.new ≡ outcome rates.now mem.old (connects line iso_protocol flags rate) }
{
    let a = ISO_REGIONS + line as usize * iso_places::REGION;
    let told = iso_connecting::connect_in(
        &mut mem[a..a + iso_places::REGION],
        rates,
        line,
        iso_records::PROTOCOL,
        flags,
        rate,
    );
    let code = codes::code_of(told);
    if code == IN_USE {
        iso_settings::note(mem, a, code);
    }
    told
}

// The code of a connect by its protocol, flags and rate, whatever its line.
fn check(rates: &[u32], protocol: u32, flags: u32, rate: u32) -> Result<(), Refusal>
    ensures { code_of result ≡ (if eqb protocol iso_protocol then iso_connect_code rates.now protocol flags rate [] else connect_code rates.now protocol flags rate []) }
{
    if protocol == iso_records::PROTOCOL {
        return iso_connecting::connect_code(rates, protocol, flags, rate);
    }
    connecting::connect_code(rates, protocol, flags, rate)
}

// What a connect is told that names no channel, whatever the memory: where nothing else is wrong, it's the line.
fn no_channel(rates: &[u32], protocol: u32, flags: u32, rate: u32) -> Result<u32, Refusal>
    ensures { (m : List ℕ) (line : ℕ) → T (valid m) → connected line protocol ≡ none → gives (code_of result) (value_of result) [] m ≡ outcome rates.now m (connects line protocol flags rate) }
{
    check(rates, protocol, flags, rate)?;
    Err(Refusal::PinInvalid)
}

// Opens the channel of a line and a protocol, at one of the rates; a channel in use notes it.
pub fn connect(
    mem: &mut [u8],
    rates: &[u32],
    line: u32,
    protocol: u32,
    flags: u32,
    rate: u32,
) -> Result<u32, Refusal>
    requires { T (valid mem.old) }
    ensures { gives (code_of result) (value_of result) [] mem.new ≡ outcome rates.now mem.old (connects line protocol flags rate) }
{
    if line as usize >= places::LINES {
        return no_channel(rates, protocol, flags, rate);
    }
    if protocol == can::PROTOCOL {
        return connect_raw(mem, rates, line, flags, rate);
    }
    if protocol == iso_records::PROTOCOL {
        return connect_iso(mem, rates, line, flags, rate);
    }
    no_channel(rates, protocol, flags, rate)
}
