// What an open asks for: whether its numbers fit the telegrams that will carry them, as given and in bytes, and the connection that opens with them.
#![tactic(auto)]

ghost use Rattle.std.specs.Prelude.{◌≡◌, [], ◌∷◌, ◌<◌, T, length, get_or};
ghost use Rattle.link.specs.Connection.{asked_fits, waits, opening};
ghost use Rattle.link_layout.specs.Sizes.{asked_size};
ghost use Rattle.link_layout.specs.Connection.{asked as asked_code, connection_part};
ghost use Rattle.link_layout.specs.Turned.{LinkPart};
ghost use Rattle.link_asking.specs.Asking.{asks};

use integers::{put_word, wide, word_at};
use link_places::{
    APPLICATION_IN, ASKED_AT, ASKED_SIZE, BLOCK_SIZE_IN, DESTINATION_IN, RX_ID_IN, T1_IN, T3_IN,
    TX_ID_AT,
};

// The largest byte, and the largest narrow identifier.
const BYTE: u32 = 0xFF;

const NARROW: u32 = 0x7FF;
// The state of a connection that opens.
const OPENING: u8 = 1;

// What an open asks for: both identifiers, the destination, the application, the block size and two times.
#[derive(Clone, Copy)]
pub struct Asking {
    pub own: u32,
    pub destination: u32,
    pub rx: u32,
    pub application: u32,
    pub size: u32,
    pub t1: u32,
    pub t3: u32,
}

// Is each number one that its field can have?
pub fn asked_fits(a: Asking) -> bool
    ensures { result ≡ asked_fits (asks a) }
{
    if a.destination > BYTE {
        return false;
    }
    if a.application > BYTE {
        return false;
    }
    if a.size > BYTE {
        return false;
    }
    (telegram_fields::opening_id(a.own)
        & (telegram_fields::destination(a.destination as u8)
            & ((a.rx <= NARROW) & telegram_fields::application(a.application as u8))))
        & (telegram_fields::block_size(a.size as u8) & ((a.t1 <= BYTE) & (a.t3 <= BYTE)))
}

// Are these the bytes of what an open asked for?
pub fn asked(s: &[u8]) -> bool
    requires { length s.now ≡ asked_size }
    ensures { result ≡ asked_code.valid s.now }
{
    asked_fits(Asking {
        own: word_at(s, 0),
        destination: wide(s[DESTINATION_IN]),
        rx: word_at(s, RX_ID_IN),
        application: wide(s[APPLICATION_IN]),
        size: wide(s[BLOCK_SIZE_IN]),
        t1: wide(s[T1_IN]),
        t3: wide(s[T3_IN]),
    })
}

// Five bytes side by side.
fn put_five(s: &mut [u8], destination: u32, application: u32, size: u32, t1: u32, t3: u32)
    requires { (length s.old ≡ 5) × (destination < 256) × (application < 256) × (size < 256) × (t1 < 256) × (t3 < 256) }
    ensures { s.new ≡ destination ∷ application ∷ size ∷ t1 ∷ t3 ∷ [] }
{
    s[0] = destination as u8;
    s[1] = application as u8;
    s[2] = size as u8;
    s[3] = t1 as u8;
    s[4] = t3 as u8;
}

// What an open asks for, into its bytes.
fn put_asked(s: &mut [u8], a: Asking)
    requires { (length s.old ≡ asked_size) × (a.destination < 256) × (a.application < 256) × (a.size < 256) × (a.t1 < 256) × (a.t3 < 256) }
    ensures { s.new ≡ asked_code.put (asks a) }
{
    put_word(&mut s[0..RX_ID_IN], a.own);
    put_word(&mut s[RX_ID_IN..DESTINATION_IN], a.rx);
    put_five(
        &mut s[DESTINATION_IN..ASKED_SIZE],
        a.destination,
        a.application,
        a.size,
        a.t1,
        a.t3,
    );
}

// A connection opens, where none was: its set-up waits to be taken.
pub fn open(part: &mut [u8], a: Asking)
    requires { LinkPart part.old × (get_or part.old 0 0 ≡ 0) × T (asked_fits (asks a)) }
    ensures { part.new ≡ connection_part.put (opening (asks a) 0 waits) }
{
    put_asked(&mut part[ASKED_AT..TX_ID_AT], a);
    part[0] = OPENING;
}
