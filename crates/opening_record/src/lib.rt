// The opening telegram that a record says: the fields that its kind has, where each is narrow enough.
#![tactic(auto)]

ghost use Rattle.std.specs.Prelude.{◌≡◌, ◌≤◌, length};
ghost use Rattle.std.proofs.Math.Option.{some};
ghost use Rattle.telegram_types.specs.Face.{taken_said};
ghost use Rattle.telegram_record.specs.Record.{kept, byte_in, carried_in, set_up_in, positive_in, negative_in, opening_in};

use integers::word_at;
use telegram_record::byte_at;
use telegram_types::{Opening, POSITIVE, SET_UP, Telegram};

// The destination, where it is a byte.
fn destination_in(bytes: &[u8]) -> Option<u8>
    requires { 32 ≤ length bytes.now }
    ensures { result ≡ byte_in 8 bytes.now }
{
    byte_at(bytes, 8)
}

// A set-up.
fn set_up(bytes: &[u8]) -> Option<Telegram>
    requires { 32 ≤ length bytes.now }
    ensures { kept (taken_said result (carried_in bytes.now)) ≡ kept (some (set_up_in bytes.now)) }
{
    let identifier = word_at(bytes, 4);
    let destination = destination_in(bytes)?;
    let rx_id = u16::try_from(word_at(bytes, 12)).ok()?;
    let application = byte_at(bytes, 16)?;
    Some(Telegram::Opening(
        identifier,
        Opening::SetUp {
            destination,
            rx_id,
            application,
        },
    ))
}

// A positive reply.
fn positive(bytes: &[u8]) -> Option<Telegram>
    requires { 32 ≤ length bytes.now }
    ensures { kept (taken_said result (carried_in bytes.now)) ≡ kept (some (positive_in bytes.now)) }
{
    let identifier = word_at(bytes, 4);
    let destination = destination_in(bytes)?;
    let tx_id = u16::try_from(word_at(bytes, 12)).ok()?;
    let rx_id = u16::try_from(word_at(bytes, 16)).ok()?;
    let application = byte_at(bytes, 20)?;
    Some(Telegram::Opening(
        identifier,
        Opening::Positive {
            destination,
            tx_id,
            rx_id,
            application,
        },
    ))
}

// A negative reply.
fn negative(bytes: &[u8]) -> Option<Telegram>
    requires { 32 ≤ length bytes.now }
    ensures { kept (taken_said result (carried_in bytes.now)) ≡ kept (some (negative_in bytes.now)) }
{
    let identifier = word_at(bytes, 4);
    let destination = destination_in(bytes)?;
    let kind = byte_at(bytes, 0)?;
    Some(Telegram::Opening(identifier, Opening::Negative { destination, kind }))
}

// An opening telegram.
pub fn opening(bytes: &[u8]) -> Option<Telegram>
    requires { 32 ≤ length bytes.now }
    ensures { kept (taken_said result (carried_in bytes.now)) ≡ kept (opening_in bytes.now) }
{
    let kind = word_at(bytes, 0);
    if kind == SET_UP as u32 {
        return set_up(bytes);
    }
    if kind == POSITIVE as u32 {
        return positive(bytes);
    }
    negative(bytes)
}
