// What raw CAN means to the box: its protocol, widths and identifiers, the flags of a connection, rates.
#![tactic(auto)]

ghost use Rattle.std.specs.Prelude.{◌≡◌};
ghost use Rattle.codec.specs.Plain.{member};
ghost use Rattle.machine.specs.Codes.{three_rates};
ghost use Rattle.machine.specs.Message.{width_flag, id_limit, takes};
ghost use Rattle.machine.specs.Channel.{is_flags, is_raw_flags};
ghost use Rattle.machine.specs.Channel.{listens as listens_by};

// The protocol of raw CAN.
pub const PROTOCOL: u32 = 5;

// The rates that a connect and a set take.
pub const RATES: [u32; 2] = [250000, 500000];

// The rates that they take in a recording without an edition.
pub const OLD_RATES: [u32; 3] = [125000, 250000, 500000];

// Does a connection of these flags take frames of this width?
pub fn takes_width(flags: u32, wide: bool) -> bool
    ensures { result ≡ takes flags wide }
{
    (flags / 0x800 % 2 == 1) | (wide == (flags / 0x100 % 2 == 1))
}

// The largest identifier of a width.
pub fn id_limit(wide: bool) -> u32
    ensures { result ≡ id_limit wide }
{
    if wide { 0x1FFF_FFFF } else { 0x7FF }
}

// The width flag of a width, in TxFlags and RxStatus.
pub fn width_flag(wide: bool) -> u32
    ensures { result ≡ width_flag wide }
{
    if wide { 0x100 } else { 0 }
}

// Are these the flags of a connection that is no listener?
pub fn is_flags(flags: u32) -> bool
    ensures { result ≡ is_flags flags }
{
    (flags == 0) | ((flags == 0x100) | ((flags == 0x800) | (flags == 0x900)))
}

// Are these the flags of a raw connection, be it a listener's or not?
pub fn is_raw_flags(flags: u32) -> bool
    ensures { result ≡ is_raw_flags flags }
{
    let listener = (flags == 0x1000_0800) | (flags == 0x1000_0900);
    let listener = (flags == 0x1000_0000) | ((flags == 0x1000_0100) | listener);
    (flags == 0) | ((flags == 0x100) | ((flags == 0x800) | ((flags == 0x900) | listener)))
}

// Is a connection of these flags a listener?
pub fn listens(flags: u32) -> bool
    ensures { result ≡ listens_by flags }
{
    flags / 0x1000_0000 % 2 == 1
}

// Is this one of the rates that a memory may hold?
pub fn is_known_rate(rate: u32) -> bool
    ensures { result ≡ member rate three_rates }
{
    (rate == 125000) | ((rate == 250000) | (rate == 500000))
}

// Is this one of a set of rates?
pub fn is_rate(rates: &[u32], rate: u32) -> bool
    ensures { result ≡ member rate rates.now }
{
    rates.contains(&rate)
}
