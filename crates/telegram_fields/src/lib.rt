// What a field may be, for the reader and the writer alike.
#![tactic(auto)]

ghost use Rattle.std.specs.Prelude.{◌≡◌, ◌≤◌};
ghost use Rattle.telegram.specs.Bits.{within, bit_value};
ghost use Rattle.telegram.specs.Telegram.{is_opening_id, is_destination, is_id, is_application, is_negative};

// The identifier may carry an opening telegram.
pub fn opening_id(identifier: u32) -> bool
    ensures { result ≡ is_opening_id identifier }
{
    (0x200 <= identifier) & (identifier <= 0x2EF)
}

// The kind of a negative reply.
pub fn negative(kind: u8) -> bool
    ensures { result ≡ is_negative kind }
{
    (0xD6 <= kind) & (kind <= 0xD8)
}

// The application of a set-up or a positive reply.
pub fn application(a: u8) -> bool
    ensures { result ≡ is_application a }
{
    (a == 0x01) | ((a == 0x10) | ((a == 0x20) | (a == 0x21)))
}

// The destination of a set-up or a reply.
pub fn destination(d: u8) -> bool
    ensures { result ≡ is_destination d }
{
    d <= 0xEF
}

// An RX-ID or a TX-ID.
pub fn id(n: u16) -> bool
    ensures { result ≡ is_id n }
{
    n <= 0x7FF
}

// The block size of a connection telegram.
pub fn block_size(n: u8) -> bool
    ensures { result ≡ within 1 15 n }
{
    (1 <= n) & (n <= 15)
}

// A bit as a number.
pub fn bit_value(b: bool) -> u8
    ensures { (result ≡ bit_value b) × (result ≤ 1) }
{
    u8::from(b)
}
