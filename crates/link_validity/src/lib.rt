// Is this the part of a connection? Its state says which parts are there; the others are zeros.
#![tactic(auto)]

ghost use Rattle.std.specs.Prelude.{◌≡◌, length};
ghost use Rattle.link_layout.specs.Sizes.{link_size};
ghost use Rattle.link_layout.specs.Connection.{connection_part};
ghost use Rattle.link_validity.specs.State.{in_state};

use integers::word_at;
use link_asking::asked;
use link_checks::{leaves, trials};
use link_places::{
    ASKED_AT, BLOCK_SIZE_IN, EXIT_AT, LINK, STANDING_AT, T1_IN, TRIALS_AT, TX_ID_AT,
};
use link_standing::{fits, parts};
use octets::all_zero;

// The largest narrow identifier.
const NARROW: u32 = 0x7FF;

// It opens: what was asked for, and the opening telegram.
fn opening(part: &[u8]) -> bool
    requires { length part.now ≡ link_size }
    ensures { result ≡ in_state 1 part.now }
{
    asked(&part[ASKED_AT..TX_ID_AT])
        & (all_zero(&part[TX_ID_AT..TRIALS_AT])
            & (trials(&part[TRIALS_AT..EXIT_AT]) & all_zero(&part[EXIT_AT..LINK])))
}

// It connects: the same, with a TX-ID.
fn connecting(part: &[u8]) -> bool
    requires { length part.now ≡ link_size }
    ensures { result ≡ in_state 2 part.now }
{
    asked(&part[ASKED_AT..TX_ID_AT])
        & (trials(&part[TRIALS_AT..EXIT_AT]) & all_zero(&part[EXIT_AT..LINK]))
        & (word_at(part, TX_ID_AT) <= NARROW)
}

// It stands: what was asked for, a TX-ID, and the standing connection.
fn standing(part: &[u8]) -> bool
    requires { length part.now ≡ link_size }
    ensures { result ≡ in_state 3 part.now }
{
    let there = asked(&part[ASKED_AT..TX_ID_AT])
        & (all_zero(&part[TRIALS_AT..STANDING_AT]) & parts(&part[STANDING_AT..LINK]));
    if !there {
        return false;
    }
    (word_at(part, TX_ID_AT) <= NARROW)
        & fits(
            &part[STANDING_AT..LINK],
            part[ASKED_AT + BLOCK_SIZE_IN],
            part[ASKED_AT + T1_IN],
        )
}

// It leaves: a TX-ID and the disconnect telegram.
fn leaving(part: &[u8]) -> bool
    requires { length part.now ≡ link_size }
    ensures { result ≡ in_state 4 part.now }
{
    all_zero(&part[ASKED_AT..TX_ID_AT])
        & (all_zero(&part[TRIALS_AT..EXIT_AT])
            & (leaves(&part[EXIT_AT..STANDING_AT]) & all_zero(&part[STANDING_AT..LINK])))
        & (word_at(part, TX_ID_AT) <= NARROW)
}

// A connection's part: none and zeros, or one in a state.
pub fn valid(part: &[u8]) -> bool
    requires { length part.now ≡ link_size }
    ensures { result ≡ connection_part.valid part.now }
{
    let k = part[0];
    if k == 0 {
        return all_zero(&part[ASKED_AT..LINK]);
    }
    if k == 1 {
        return opening(part);
    }
    if k == 2 {
        return connecting(part);
    }
    if k == 3 {
        return standing(part);
    }
    if k == 4 {
        return leaving(part);
    }
    false
}
