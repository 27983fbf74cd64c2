// Telegrams on a channel out of bytes: one function a kind; the first byte decides.
#![tactic(auto)]

ghost use Rattle.std.specs.Prelude.{◌≡◌, [], ◌∷◌, ◌/◌, ◌≤◌, ◌<◌, length, get_or};
ghost use Rattle.std.proofs.Math.Option.{map};
ghost use Rattle.telegram.specs.Bits.{bit};
ghost use Rattle.telegram.specs.Telegram.{read_channel, channel as travels};
ghost use Rattle.telegram_types.specs.Face.{told, answering};

use codes::Refusal;
use telegram_answers::{carried, only_if, plain, refused};
use telegram_types::{
    Answer, BREAK, CONNECTION_ACKNOWLEDGE, DISCONNECT, OnChannel, TEST, Telegram,
};

// The bit of the byte that is worth `worth`.
fn is_set(byte: u8, worth: u8) -> bool
    requires { 0 < worth }
    ensures { result ≡ bit worth byte }
{
    byte / worth % 2 == 1
}

// Data.
fn data(bytes: &[u8]) -> Result<Answer, Refusal>
    requires { (0 < length bytes.now) × (get_or bytes.now 0 0 ≤ 0x3F) }
    ensures { told result ≡ answering (map travels (read_channel bytes.now)) }
{
    if bytes.len() > 8 {
        return refused();
    }
    let first = bytes[0];
    let payload = carried(bytes, 1);
    Ok(Answer {
        telegram: Telegram::Channel(OnChannel::Data {
            asks: !is_set(first, 0x20),
            last: is_set(first, 0x10),
            sn: first % 16,
        }),
        payload,
        len: bytes.len() - 1,
    })
}

// A connection set-up or acknowledge.
fn connection(bytes: &[u8]) -> Result<Answer, Refusal>
    requires { (0 < length bytes.now) × (get_or bytes.now 0 0 / 2 ≡ 0x50) }
    ensures { told result ≡ answering (map travels (read_channel bytes.now)) }
{
    if bytes.len() != 6 {
        return refused();
    }
    let block_size = bytes[1];
    let ack = bytes[0] == CONNECTION_ACKNOWLEDGE;
    let t1 = bytes[2];
    let t2 = bytes[3];
    let t3 = bytes[4];
    let t4 = bytes[5];
    only_if(
        telegram_fields::block_size(block_size),
        Telegram::Channel(OnChannel::Connection {
            ack,
            block_size,
            t1,
            t2,
            t3,
            t4,
        }),
    )
}

// A telegram of one byte.
fn alone(first: u8) -> Result<Answer, Refusal>
    requires { (0x3F < first) × (first / 2 ≡ 0x50 → ⊥) }
    ensures { told result ≡ answering (map travels (read_channel (first ∷ []))) }
{
    let high = first / 16;
    if (high == 0x9) | (high == 0xB) {
        return plain(Telegram::Channel(OnChannel::Acknowledge {
            ready: high == 0xB,
            sn: first % 16,
        }));
    }
    match first {
        TEST => plain(Telegram::Channel(OnChannel::Test)),
        BREAK => plain(Telegram::Channel(OnChannel::Break)),
        DISCONNECT => plain(Telegram::Channel(OnChannel::Disconnect)),
        _ => refused(),
    }
}

// A telegram on a channel: the first byte decides.
pub fn channel(bytes: &[u8]) -> Result<Answer, Refusal>
    ensures { told result ≡ answering (map travels (read_channel bytes.now)) }
{
    if bytes.len() < 1 {
        return refused();
    }
    let first = bytes[0];
    if first <= 0x3F {
        return data(bytes);
    }
    if first / 2 == 0x50 {
        return connection(bytes);
    }
    if bytes.len() > 1 {
        return refused();
    }
    alone(first)
}
