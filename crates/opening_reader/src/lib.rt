// Opening telegrams out of bytes: one function a kind; the second byte decides.
#![tactic(auto)]

ghost use Rattle.std.specs.Prelude.{◌≡◌, ◌+◌, ◌<◌, length, get_or};
ghost use Rattle.std.proofs.Math.Option.{map};
ghost use Rattle.telegram.specs.Telegram.{opening_of, read_opening, id_at, opening as opens};
ghost use Rattle.telegram_types.specs.Face.{told, answering};

use codes::Refusal;
use telegram_answers::{carried, only_if, refused};
use telegram_types::{Answer, Opening, POSITIVE, SET_UP, Telegram};

// The number of the two bytes at `at`, the lower one first.
fn id_at(bytes: &[u8], at: usize) -> u16
    requires { at + 1 < length bytes.now }
    ensures { result ≡ id_at bytes.now at }
{
    u16::from_le_bytes([bytes[at], bytes[at + 1]])
}

// A set-up: its TX-ID isn't given.
fn set_up(identifier: u32, bytes: &[u8]) -> Result<Answer, Refusal>
    requires { (length bytes.now ≡ 7) × (get_or bytes.now 1 0 ≡ 0xC0) }
    ensures { told result ≡ answering (map (opens identifier) (opening_of bytes.now)) }
{
    let rx_id = id_at(bytes, 4);
    let application = bytes[6];
    let unset = (bytes[2] == 0x00) & (bytes[3] == 0x10);
    let destination = bytes[0];
    only_if(
        unset & (telegram_fields::id(rx_id) & telegram_fields::application(application)),
        Telegram::Opening(
            identifier,
            Opening::SetUp {
                destination,
                rx_id,
                application,
            },
        ),
    )
}

// A positive reply.
fn positive(identifier: u32, bytes: &[u8]) -> Result<Answer, Refusal>
    requires { (length bytes.now ≡ 7) × (get_or bytes.now 1 0 ≡ 0xD0) }
    ensures { told result ≡ answering (map (opens identifier) (opening_of bytes.now)) }
{
    let tx_id = id_at(bytes, 2);
    let rx_id = id_at(bytes, 4);
    let application = bytes[6];
    let destination = bytes[0];
    only_if(
        telegram_fields::id(tx_id)
            & (telegram_fields::id(rx_id) & telegram_fields::application(application)),
        Telegram::Opening(
            identifier,
            Opening::Positive {
                destination,
                tx_id,
                rx_id,
                application,
            },
        ),
    )
}

// A negative reply, or no telegram.
fn negative(identifier: u32, bytes: &[u8]) -> Result<Answer, Refusal>
    requires { (length bytes.now ≡ 7) × ((get_or bytes.now 1 0 ≡ 0xC0 → ⊥) × (get_or bytes.now 1 0 ≡ 0xD0 → ⊥)) }
    ensures { told result ≡ answering (map (opens identifier) (opening_of bytes.now)) }
{
    let kind = bytes[1];
    if telegram_fields::negative(kind) {
        let payload = carried(bytes, 2);
        return Ok(Answer {
            telegram: Telegram::Opening(
                identifier,
                Opening::Negative {
                    destination: bytes[0],
                    kind,
                },
            ),
            payload,
            len: 5,
        });
    }
    refused()
}

// An opening telegram under its identifier.
pub fn opening(identifier: u32, bytes: &[u8]) -> Result<Answer, Refusal>
    ensures { told result ≡ answering (map (opens identifier) (read_opening identifier bytes.now)) }
{
    if bytes.len() != 7 {
        return refused();
    }
    if !(telegram_fields::opening_id(identifier) & telegram_fields::destination(bytes[0])) {
        return refused();
    }
    let kind = bytes[1];
    if kind == SET_UP {
        return set_up(identifier, bytes);
    }
    if kind == POSITIVE {
        return positive(identifier, bytes);
    }
    negative(identifier, bytes)
}
