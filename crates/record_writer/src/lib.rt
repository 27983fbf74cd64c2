// The bytes of the telegram that a record says.
#![tactic(auto)]

ghost use Rattle.std.specs.Prelude.{◌≡◌, min, ◌≤◌, length};
ghost use Rattle.codes.specs.Code.{code_of, value_of};
ghost use Rattle.telegram_types.specs.Face.{taken_said};
ghost use Rattle.telegram_record.specs.Record.{kept, carried_in, telegram_in};
ghost use Rattle.telegram_record.specs.Crossing.{gave, writing};

use codes::Refusal;
use telegram_types::{SET_UP, Telegram};
pub use tp20::ROOM;

// The size of a record in bytes.
pub const RECORD: usize = 32;

// The telegram that a record says, where the tables allow it.
fn telegram_in(bytes: &[u8]) -> Option<Telegram>
    requires { 32 ≤ length bytes.now }
    ensures { kept (taken_said result (carried_in bytes.now)) ≡ telegram_in bytes.now }
{
    if integers::word_at(bytes, 0) >= SET_UP as u32 {
        return opening_record::opening(bytes);
    }
    channel_record::channel(bytes)
}

// How many of the seven bytes are carried.
fn carried(n: u8) -> usize
    ensures { result ≡ min n 7 }
{
    n.min(7) as usize
}

// The bytes of the telegram that a record says, over the start of a buffer; how many.
pub fn write(telegram: &[u8], buffer: &mut [u8]) -> Result<u32, Refusal>
    ensures { gave (code_of result) (value_of result) buffer.new ≡ writing telegram.now buffer.old }
{
    if telegram.len() < RECORD {
        return Err(Refusal::NullParameter);
    }
    if buffer.len() < ROOM {
        return Err(Refusal::NullParameter);
    }
    let Some(said) = telegram_in(telegram) else {
        return Err(Refusal::InvalidMsg);
    };
    let end = 25 + carried(telegram[24]);
    let len = tp20::write(said, &telegram[25..end], buffer)?;
    Ok(len as u32)
}
