// Telegrams on a channel into bytes: the fields are looked at first, so that a refusal leaves the buffer as it was.
#![tactic(auto)]

ghost use Rattle.std.specs.Prelude.{◌≡◌, ◌≤◌, length};
ghost use Rattle.telegram.specs.Telegram.{data_telegram, acknowledge as acknowledgement, connection as connection_telegram, fits, on_wire};
ghost use Rattle.telegram_types.specs.Face.{wrote, written_if, channel_said};

use codes::Refusal;
use telegram_bytes::{all, both, one, refused};
use telegram_types::{BREAK, CONNECTION, DISCONNECT, OnChannel, TEST};

// Data: AR is 0 where they ask for an acknowledgement.
fn data(asks: bool, last: bool, sn: u8, bytes: &[u8], buf: &mut [u8]) -> Result<usize, Refusal>
    requires { 8 ≤ length buf.old }
    ensures { wrote result buf.new ≡ written_if (fits (data_telegram asks last sn bytes.now)) (on_wire (data_telegram asks last sn bytes.now)) buf.old }
{
    if sn > 15 {
        return refused();
    }
    if bytes.len() > 7 {
        return refused();
    }
    let head = [
        0x20 * telegram_fields::bit_value(!asks) + 0x10 * telegram_fields::bit_value(last) + sn,
    ];
    both(&head, bytes, buf)
}

// An acknowledge: RS is 1 where the receiver is ready.
fn acknowledge(ready: bool, sn: u8, buf: &mut [u8]) -> Result<usize, Refusal>
    requires { 8 ≤ length buf.old }
    ensures { wrote result buf.new ≡ written_if (fits (acknowledgement ready sn)) (on_wire (acknowledgement ready sn)) buf.old }
{
    if sn > 15 {
        return refused();
    }
    one(
        0x80 + 0x20 * telegram_fields::bit_value(ready) + 0x10 + sn,
        buf,
    )
}

// A connection set-up or acknowledge.
fn connection(
    ack: bool,
    block_size: u8,
    t1: u8,
    t2: u8,
    t3: u8,
    t4: u8,
    buf: &mut [u8],
) -> Result<usize, Refusal>
    requires { 8 ≤ length buf.old }
    ensures { wrote result buf.new ≡ written_if (fits (connection_telegram ack block_size t1 t2 t3 t4)) (on_wire (connection_telegram ack block_size t1 t2 t3 t4)) buf.old }
{
    let bytes = [
        CONNECTION + telegram_fields::bit_value(ack),
        block_size,
        t1,
        t2,
        t3,
        t4,
    ];
    all(telegram_fields::block_size(block_size), &bytes, buf)
}

// A telegram on a channel.
pub fn channel(t: OnChannel, bytes: &[u8], buf: &mut [u8]) -> Result<usize, Refusal>
    requires { 8 ≤ length buf.old }
    ensures { wrote result buf.new ≡ written_if (fits (channel_said t bytes.now)) (on_wire (channel_said t bytes.now)) buf.old }
{
    match t {
        OnChannel::Data { asks, last, sn } => data(asks, last, sn, bytes, buf),
        OnChannel::Acknowledge { ready, sn } => acknowledge(ready, sn, buf),
        OnChannel::Connection {
            ack,
            block_size,
            t1,
            t2,
            t3,
            t4,
        } => connection(ack, block_size, t1, t2, t3, t4, buf),
        OnChannel::Test => one(TEST, buf),
        OnChannel::Break => one(BREAK, buf),
        OnChannel::Disconnect => one(DISCONNECT, buf),
    }
}
