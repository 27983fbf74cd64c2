// Connecting with ISO 15765: a fresh channel on a line, and its end.
#![tactic(auto)]

ghost use Rattle.std.specs.Prelude.{◌≡◌, List, [], ℕ, ◌<◌, T, length};
ghost use Rattle.codes.specs.Code.{code_of, value_of};
ghost use Rattle.machine.specs.Limits.{lines};
ghost use Rattle.machine.specs.Channel.{disconnect};
ghost use Rattle.layout.specs.Promise.{gives};
ghost use Rattle.iso.specs.Iso.{iso_connect_code, on_iso_connect};
ghost use Rattle.iso_layout.specs.Sizes.{iso_region_size};
ghost use Rattle.iso_layout.specs.Region.{iso_region};
ghost use Rattle.iso_layout.specs.Promise.{IsoOpened, iso_gives, iso_outcome};

use codes::Refusal;

// The channel number of line 0.
const FIRST: u32 = 5;

// The checks of a connect by its protocol, flags and rate: but for the protocol and the listeners' flag those of any connect.
pub fn connect_code(rates: &[u32], protocol: u32, flags: u32, rate: u32) -> Result<(), Refusal>
    ensures { code_of result ≡ iso_connect_code rates.now protocol flags rate [] }
{
    if protocol != iso_records::PROTOCOL {
        return Err(Refusal::InvalidProtocolId);
    }
    if can::listens(flags) {
        return Err(Refusal::InvalidFlags);
    }
    connecting::connect_code(rates, can::PROTOCOL, flags, rate)
}

// Connect: a closed channel's region becomes that of a fresh one.
pub fn connect_in(
    r: &mut [u8],
    rates: &[u32],
    line: u32,
    protocol: u32,
    flags: u32,
    rate: u32,
) -> Result<u32, Refusal>
    requires { (length r.old ≡ iso_region_size) × T (iso_region.valid r.old) × (line < lines) }
    ensures { gives (code_of result) (value_of result) [] r.new ≡ iso_gives (on_iso_connect rates.now (iso_region.get r.old) line protocol flags rate) }
{
    connect_code(rates, protocol, flags, rate)?;
    connecting::open(r, flags, rate)?;
    Ok(line + FIRST)
}

// Disconnect: the region becomes zeros.
pub fn disconnect_in(r: &mut [u8])
    requires { IsoOpened r.old }
    ensures { (rates : List ℕ) (t : ℕ) → gives 0 0 [] r.new ≡ iso_outcome rates t r.old disconnect }
{
    octets::zero(r);
}
