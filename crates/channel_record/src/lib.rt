// The telegram on a channel that a record says: the fields that its kind has, where each is narrow enough.
#![tactic(auto)]

ghost use Rattle.std.specs.Prelude.{◌≡◌, List, ℕ, ◌≤◌, length};
ghost use Rattle.std.proofs.Math.Option.{some};
ghost use Rattle.telegram_types.specs.Face.{taken_said};
ghost use Rattle.telegram_record.specs.Record.{kept, carried_in, data_in, acknowledge_in, connection_in, alone_in, channel_in};

use integers::word_at;
use telegram_record::byte_at;
use telegram_types::{
    ACKNOWLEDGE, BREAK, CONNECTION, CONNECTION_ACKNOWLEDGE, DATA, DISCONNECT, OnChannel, TEST,
    Telegram,
};

// Data.
fn data(bytes: &[u8]) -> Option<Telegram>
    requires { 32 ≤ length bytes.now }
    ensures { kept (taken_said result (carried_in bytes.now)) ≡ kept (data_in bytes.now) }
{
    let asks = word_at(bytes, 4);
    let last = word_at(bytes, 8);
    let sn = byte_at(bytes, 12)?;
    let known = (asks <= 1) & ((last <= 1) & (bytes[24] <= 7));
    known.then_some(Telegram::Channel(OnChannel::Data {
        asks: asks == 1,
        last: last == 1,
        sn,
    }))
}

// An acknowledge.
fn acknowledge(bytes: &[u8]) -> Option<Telegram>
    requires { 32 ≤ length bytes.now }
    ensures { kept (taken_said result (carried_in bytes.now)) ≡ kept (acknowledge_in bytes.now) }
{
    let ready = word_at(bytes, 4);
    let sn = byte_at(bytes, 8)?;
    let known = ready <= 1;
    known.then_some(Telegram::Channel(OnChannel::Acknowledge {
        ready: ready == 1,
        sn,
    }))
}

// A connection set-up or acknowledge.
fn connection(bytes: &[u8]) -> Option<Telegram>
    requires { 32 ≤ length bytes.now }
    ensures { kept (taken_said result (carried_in bytes.now)) ≡ kept (some (connection_in bytes.now)) }
{
    let kind = word_at(bytes, 0);
    let block_size = byte_at(bytes, 4)?;
    let t1 = byte_at(bytes, 8)?;
    let t2 = byte_at(bytes, 12)?;
    let t3 = byte_at(bytes, 16)?;
    let t4 = byte_at(bytes, 20)?;
    Some(Telegram::Channel(OnChannel::Connection {
        ack: kind == CONNECTION_ACKNOWLEDGE as u32,
        block_size,
        t1,
        t2,
        t3,
        t4,
    }))
}

// A telegram of no fields, by its kind.
fn alone(kind: u32) -> Option<Telegram>
    ensures { (bytes : List ℕ) → taken_said result bytes ≡ alone_in kind }
{
    if kind == TEST as u32 {
        return Some(Telegram::Channel(OnChannel::Test));
    }
    if kind == BREAK as u32 {
        return Some(Telegram::Channel(OnChannel::Break));
    }
    if kind == DISCONNECT as u32 {
        return Some(Telegram::Channel(OnChannel::Disconnect));
    }
    None
}

// A telegram on a channel.
pub fn channel(bytes: &[u8]) -> Option<Telegram>
    requires { 32 ≤ length bytes.now }
    ensures { kept (taken_said result (carried_in bytes.now)) ≡ kept (channel_in bytes.now) }
{
    let kind = word_at(bytes, 0);
    if kind == DATA as u32 {
        return data(bytes);
    }
    if kind == ACKNOWLEDGE as u32 {
        return acknowledge(bytes);
    }
    if (kind == CONNECTION as u32) | (kind == CONNECTION_ACKNOWLEDGE as u32) {
        return connection(bytes);
    }
    alone(kind)
}
