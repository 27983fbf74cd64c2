// TP2.0 telegrams: a reader, a writer, and the numbers of a telegram for a trace.
#![tactic(auto)]

ghost use Rattle.std.specs.Prelude.{◌≡◌};
ghost use Rattle.telegram.specs.Telegram.{read_any};
ghost use Rattle.telegram_types.specs.Face.{told, answering, wrote, writing, said, naming};

use codes::Refusal;
pub use telegram_types::{Answer, Named, OnChannel, Opening, Telegram};

// The room that the bytes of any telegram have.
pub const ROOM: usize = 8;

// The telegram that `bytes` are: an opening one under the identifier, or one on a channel, where the identifier plays no part.
pub fn read(opening: bool, identifier: u32, bytes: &[u8]) -> Result<Answer, Refusal>
    ensures { told result ≡ answering (read_any opening identifier bytes.now) }
{
    if opening {
        return opening_reader::opening(identifier, bytes);
    }
    channel_reader::channel(bytes)
}

// Writes the telegram, with the bytes that it carries, to the start of the buffer; a refusal leaves the buffer as it was.
pub fn write(telegram: Telegram, bytes: &[u8], buf: &mut [u8]) -> Result<usize, Refusal>
    ensures { wrote result buf.new ≡ writing (said telegram bytes.now) buf.old }
{
    if buf.len() < ROOM {
        return Err(Refusal::NullParameter);
    }
    match telegram {
        Telegram::Opening(identifier, o) => opening_writer::opening(identifier, o, bytes, buf),
        Telegram::Channel(t) => channel_writer::channel(t, bytes, buf),
    }
}

// The telegram that `bytes` are, in numbers; one that can't be taken apart is refused before any field of it is used.
pub fn name(opening: bool, identifier: u32, bytes: &[u8]) -> Result<Named, Refusal>
    ensures { result ≡ naming (read_any opening identifier bytes.now) }
{
    let Ok(answer) = read(opening, identifier, bytes) else {
        return telegram_numbers::nothing();
    };
    let numbers = telegram_numbers::numbers(answer.telegram);
    let fields = numbers.fields;
    let payload = answer.payload;
    Ok(Named {
        kind: numbers.kind,
        fields,
        payload,
        len: answer.len,
    })
}
