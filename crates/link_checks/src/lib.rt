// Are these the bytes of a part of a connection? Each function decides what one code of the layout calls valid.
#![tactic(auto)]

ghost use Rattle.std.specs.Prelude.{◌≡◌, length};
ghost use Rattle.codec.specs.Code.{text};
ghost use Rattle.link.specs.Connection.{longest};
ghost use Rattle.link_layout.specs.Sizes.{which_size, trials_size, care_size, text_size, out_size, hear_size};
ghost use Rattle.link_layout.specs.Connection.{trials as trials_code, leaves as leaves_code, wire as wire_code, care as care_code, out as out_code, hear as hear_code};
ghost use Rattle.link_checks.specs.Tagged.{by_tag};

use integers::word_at;
use link_places::{
    ACK_IN, AGAIN_IN, BLOCK_IN, BYTES_IN, COMPLETE_IN, HEAR_SIZE, OUT_SIZE, REPEATS_IN, REST_IN,
    TESTS_IN, TRIAL_IN,
};

// The repeats of an opening telegram; T_E and the longest time of a time byte, in microseconds; the largest byte.
const MNTC: u8 = 10;

const T_E: u32 = 100_000;

const LONGEST_TIME: u32 = 6_300_000;

const BYTE: u32 = 0xFF;

const MOST_BYTES: u32 = link_places::MOST_BYTES as u32;
// In what is sent, the block's repeats, how often it was asked for again, and the bytes of the message.
const REPEATS: usize = BLOCK_IN + REPEATS_IN;

const AGAIN: usize = BLOCK_IN + AGAIN_IN;

const MESSAGE: usize = BLOCK_IN + REST_IN;

// One of three answers, by a tag.
fn by_tag(k: u8, a: bool, b: bool, c: bool) -> bool
    ensures { result ≡ by_tag k a b c }
{
    ((k == 0) & a) | (((k == 1) & b) | ((k == 2) & c))
}

// An opening telegram: its repeats, and whether it waits, flies or T_E runs.
pub fn trials(s: &[u8]) -> bool
    requires { length s.now ≡ trials_size }
    ensures { result ≡ trials_code.valid s.now }
{
    let us = word_at(s, TRIAL_IN + 1);
    (s[0] <= MNTC) & by_tag(s[TRIAL_IN], us == 0, us == 0, (1 <= us) & (us <= T_E))
}

// A disconnect telegram: what is left of T3, T3's byte, or nothing.
pub fn leaves(s: &[u8]) -> bool
    requires { length s.now ≡ which_size }
    ensures { result ≡ leaves_code.valid s.now }
{
    let us = word_at(s, 1);
    by_tag(s[0], us <= LONGEST_TIME, us <= BYTE, us == 0)
}

// The line: what is left of T3, or a telegram in flight.
pub fn wire(s: &[u8]) -> bool
    requires { length s.now ≡ which_size }
    ensures { result ≡ wire_code.valid s.now }
{
    (s[0] == 0) | ((s[0] <= 3) & (word_at(s, 1) == 0))
}

// The connection test: two marks and two numbers.
pub fn care(s: &[u8]) -> bool
    requires { length s.now ≡ care_size }
    ensures { result ≡ care_code.valid s.now }
{
    (s[0] <= 1) & (s[TESTS_IN] <= 1)
}

// At most 512 bytes behind their count, and zeros behind them.
pub fn store(s: &[u8]) -> bool
    requires { length s.now ≡ text_size }
    ensures { result ≡ (text longest).valid s.now }
{
    let n = word_at(s, 0);
    if n > MOST_BYTES {
        return false;
    }
    let z = places::NUMBER + n as usize;
    octets::all_zero(&s[z..])
}

// What is sent: no message and zeros, its telegrams are sent, or T1 runs.
pub fn out(s: &[u8]) -> bool
    requires { length s.now ≡ out_size }
    ensures { result ≡ out_code.valid s.now }
{
    if !store(&s[MESSAGE..OUT_SIZE]) {
        return false;
    }
    let still = word_at(s, 1) == 0;
    let none = (s[BLOCK_IN] == 0)
        & (s[REPEATS] == 0)
        & (s[AGAIN] == 0)
        & (word_at(s, MESSAGE) == 0);
    by_tag(s[0], still & none, still, true)
}

// What is received: the acknowledge that waits, the complete mark, the bytes.
pub fn hear(s: &[u8]) -> bool
    requires { length s.now ≡ hear_size }
    ensures { result ≡ hear_code.valid s.now }
{
    (s[ACK_IN] <= 2) & ((s[COMPLETE_IN] <= 1) & store(&s[BYTES_IN..HEAR_SIZE]))
}
