// What the reader answers: no telegram, one that carries no bytes, and the array of those that one carries.
#![tactic(auto)]

ghost use Rattle.std.specs.Prelude.{◌≡◌, [], ◌+◌, ◌≤◌, length, drop};
ghost use Rattle.std.proofs.Math.Option.{none, some};
ghost use Rattle.telegram.specs.Bits.{only_if};
ghost use Rattle.telegram_types.specs.Face.{told, answering, said, padded};

use codes::Refusal;
use telegram_types::{Answer, Telegram};

// No telegram: 0x0A.
pub fn refused() -> Result<Answer, Refusal>
    ensures { told result ≡ answering none }
{
    Err(Refusal::InvalidMsg)
}

// A telegram that carries no bytes.
pub fn plain(telegram: Telegram) -> Result<Answer, Refusal>
    ensures { told result ≡ answering (some (said telegram [])) }
{
    Ok(Answer {
        telegram,
        payload: [0; 7],
        len: 0,
    })
}

// The telegram, which carries no bytes, where the test holds.
pub fn only_if(test: bool, telegram: Telegram) -> Result<Answer, Refusal>
    ensures { told result ≡ answering (only_if test (said telegram [])) }
{
    if test {
        return plain(telegram);
    }
    refused()
}

// The bytes from `from` on in an array of seven, zeros after them.
pub fn carried(bytes: &[u8], from: usize) -> [u8; 7]
    requires { (from ≤ length bytes.now) × (length bytes.now ≤ from + 7) }
    ensures { result ≡ padded (drop from bytes.now) }
{
    let mut payload = [0u8; 7];
    telegram_bytes::put(&bytes[from..], &mut payload);
    payload
}
