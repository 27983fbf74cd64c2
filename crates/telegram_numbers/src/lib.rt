// Telegrams as numbers: a kind and five fields.
#![tactic(auto)]

ghost use Rattle.std.specs.Prelude.{◌≡◌, List, ℕ};
ghost use Rattle.std.proofs.Math.Option.{none};
ghost use Rattle.telegram_types.specs.Face.{naming, kind_and_fields, numbers_of, said, opening_said, channel_said};
ghost use Rattle.telegram.specs.Bits.{bit_value};
ghost use Rattle.telegram.specs.Telegram.{opening as opens, channel as travels};

use codes::Refusal;
use telegram_types::{
    ACKNOWLEDGE, BREAK, CONNECTION, DATA, DISCONNECT, Named, Numbers, OnChannel, Opening, POSITIVE,
    SET_UP, TEST, Telegram,
};

// No telegram: 0x0A.
pub fn nothing() -> Result<Named, Refusal>
    ensures { result ≡ naming none }
{
    Err(Refusal::InvalidMsg)
}

// A kind and five fields.
fn five(kind: u8, a: u32, b: u32, c: u32, d: u32, e: u32) -> Numbers
    ensures { result ≡ kind_and_fields kind a b c d e }
{
    Numbers {
        kind,
        fields: [a, b, c, d, e],
    }
}

// A kind and three fields.
fn three(kind: u8, a: u32, b: u32, c: u32) -> Numbers
    ensures { result ≡ kind_and_fields kind a b c 0 0 }
{
    five(kind, a, b, c, 0, 0)
}

// The kind and the fields of an opening telegram.
fn opening(identifier: u32, o: Opening) -> Numbers
    ensures { (bytes : List ℕ) → result ≡ numbers_of (opens identifier (opening_said o bytes)) }
{
    match o {
        Opening::SetUp {
            destination,
            rx_id,
            application,
        } => five(
            SET_UP,
            identifier,
            destination as u32,
            rx_id as u32,
            application as u32,
            0,
        ),
        Opening::Positive {
            destination,
            tx_id,
            rx_id,
            application,
        } => five(
            POSITIVE,
            identifier,
            destination as u32,
            tx_id as u32,
            rx_id as u32,
            application as u32,
        ),
        Opening::Negative { destination, kind } => three(kind, identifier, destination as u32, 0),
    }
}

// A bit as a field.
fn bit(b: bool) -> u32
    ensures { result ≡ bit_value b }
{
    telegram_fields::bit_value(b) as u32
}

// The kind and the fields of a telegram on a channel.
fn channel(t: OnChannel) -> Numbers
    ensures { (bytes : List ℕ) → result ≡ numbers_of (travels (channel_said t bytes)) }
{
    match t {
        OnChannel::Data { asks, last, sn } => three(DATA, bit(asks), bit(last), sn as u32),
        OnChannel::Acknowledge { ready, sn } => three(ACKNOWLEDGE, bit(ready), sn as u32, 0),
        OnChannel::Connection {
            ack,
            block_size,
            t1,
            t2,
            t3,
            t4,
        } => five(
            CONNECTION + telegram_fields::bit_value(ack),
            block_size as u32,
            t1 as u32,
            t2 as u32,
            t3 as u32,
            t4 as u32,
        ),
        OnChannel::Test => three(TEST, 0, 0, 0),
        OnChannel::Break => three(BREAK, 0, 0, 0),
        OnChannel::Disconnect => three(DISCONNECT, 0, 0, 0),
    }
}

// The kind and the fields of a telegram.
pub fn numbers(telegram: Telegram) -> Numbers
    ensures { (bytes : List ℕ) → result ≡ numbers_of (said telegram bytes) }
{
    match telegram {
        Telegram::Opening(identifier, o) => opening(identifier, o),
        Telegram::Channel(t) => channel(t),
    }
}
