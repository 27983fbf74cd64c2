// Opening telegrams into bytes: the fields are looked at first, so that a refusal leaves the buffer as it was.
#![tactic(auto)]

ghost use Rattle.std.specs.Prelude.{◌≡◌, ◌≤◌, length};
ghost use Rattle.telegram.specs.Telegram.{set_up, positive as positive_reply, negative as negative_reply, fields_fit, opening_fits, opening_bytes};
ghost use Rattle.telegram_types.specs.Face.{wrote, written_if, opening_said};

use codes::Refusal;
use telegram_bytes::{all, both, refused};
use telegram_types::{Opening, POSITIVE, SET_UP};

// A set-up: its TX-ID isn't given.
fn set_up(destination: u8, rx_id: u16, application: u8, buf: &mut [u8]) -> Result<usize, Refusal>
    requires { 8 ≤ length buf.old }
    ensures { wrote result buf.new ≡ written_if (fields_fit (set_up destination rx_id application)) (opening_bytes (set_up destination rx_id application)) buf.old }
{
    let bytes = [
        destination,
        SET_UP,
        0x00,
        0x10,
        (rx_id % 256) as u8,
        (rx_id / 256) as u8,
        application,
    ];
    let fit = telegram_fields::destination(destination)
        & (telegram_fields::id(rx_id) & telegram_fields::application(application));
    all(fit, &bytes, buf)
}

// A positive reply.
fn positive(
    destination: u8,
    tx_id: u16,
    rx_id: u16,
    application: u8,
    buf: &mut [u8],
) -> Result<usize, Refusal>
    requires { 8 ≤ length buf.old }
    ensures { wrote result buf.new ≡ written_if (fields_fit (positive_reply destination tx_id rx_id application)) (opening_bytes (positive_reply destination tx_id rx_id application)) buf.old }
{
    let bytes = [
        destination,
        POSITIVE,
        (tx_id % 256) as u8,
        (tx_id / 256) as u8,
        (rx_id % 256) as u8,
        (rx_id / 256) as u8,
        application,
    ];
    let fit = telegram_fields::destination(destination)
        & (telegram_fields::id(tx_id)
            & (telegram_fields::id(rx_id) & telegram_fields::application(application)));
    all(fit, &bytes, buf)
}

// A negative reply: it carries five bytes.
fn negative(destination: u8, kind: u8, bytes: &[u8], buf: &mut [u8]) -> Result<usize, Refusal>
    requires { 8 ≤ length buf.old }
    ensures { wrote result buf.new ≡ written_if (fields_fit (negative_reply destination kind bytes.now)) (opening_bytes (negative_reply destination kind bytes.now)) buf.old }
{
    if bytes.len() != 5 {
        return refused();
    }
    if telegram_fields::destination(destination) & telegram_fields::negative(kind) {
        let head = [destination, kind];
        return both(&head, bytes, buf);
    }
    refused()
}

// An opening telegram under its identifier.
pub fn opening(identifier: u32, o: Opening, bytes: &[u8], buf: &mut [u8]) -> Result<usize, Refusal>
    requires { 8 ≤ length buf.old }
    ensures { wrote result buf.new ≡ written_if (opening_fits identifier (opening_said o bytes.now)) (opening_bytes (opening_said o bytes.now)) buf.old }
{
    if !telegram_fields::opening_id(identifier) {
        return refused();
    }
    match o {
        Opening::SetUp {
            destination,
            rx_id,
            application,
        } => set_up(destination, rx_id, application, buf),
        Opening::Positive {
            destination,
            tx_id,
            rx_id,
            application,
        } => positive(destination, tx_id, rx_id, application, buf),
        Opening::Negative { destination, kind } => negative(destination, kind, bytes, buf),
    }
}
