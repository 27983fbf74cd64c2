// Telegrams as records of 32 bytes, as they cross to C.
#![tactic(auto)]

ghost use Rattle.std.specs.Prelude.{◌≡◌};
ghost use Rattle.codes.specs.Code.{code_of};
ghost use Rattle.telegram.specs.Telegram.{read_any};
ghost use Rattle.telegram_record.specs.Crossing.{gave, reading};

use codes::Refusal;
use record_writer::RECORD;
pub use record_writer::write;

// The record of the telegram that `bytes` are, over the start of a buffer.
pub fn read(
    opening: bool,
    identifier: u32,
    bytes: &[u8],
    telegram: &mut [u8],
) -> Result<(), Refusal>
    ensures { gave (code_of result) 0 telegram.new ≡ reading (read_any opening identifier bytes.now) telegram.old }
{
    if telegram.len() < RECORD {
        return Err(Refusal::NullParameter);
    }
    let named = tp20::name(opening, identifier, bytes)?;
    let fields = named.fields;
    let payload = named.payload;
    let record = telegram_record::pack(named.kind, fields, named.len as u8, payload);
    octets::copy(&mut telegram[..32], &record);
    Ok(())
}
