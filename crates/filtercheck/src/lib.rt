// The checks of a filter that is to be started.
#![tactic(auto)]

ghost use Rattle.std.specs.Prelude.{◌≡◌};
ghost use Rattle.codes.specs.Code.{code_of};
ghost use Rattle.codec.specs.Plain.{within};
ghost use Rattle.machine.specs.Filter.{free};
ghost use Rattle.machine.specs.Channel.{Open, filter_code};

use codes::Refusal;
use places::{PLACES, RECORD, ROW, SIZE_IN, TX_FLAGS_IN};

// The most data bytes that a filter compares.
const MOST_SIZE: u32 = ROW as u32;

// Is a number one of those from one to another?
pub fn between(from: u32, to: u32, n: u32) -> bool
    ensures { result ≡ within from to n }
{
    (from <= n) & (n <= to)
}

// The checks of a start in their order, where `place` is the first empty place.
pub fn start_code(
    flags: u32,
    kind: u32,
    mask: &[u8],
    pattern: &[u8],
    place: usize,
) -> Result<(), Refusal>
    ensures { (o : Open) → o.config.flags ≡ flags → free o.filters ≡ place → code_of result ≡ filter_code o kind mask.now pattern.now }
{
    if mask.len() < RECORD {
        return Err(Refusal::NullParameter);
    }
    if pattern.len() < RECORD {
        return Err(Refusal::NullParameter);
    }
    if !between(1, 2, kind) {
        return Err(Refusal::InvalidFilterId);
    }
    if (integers::word_at(mask, 0) != can::PROTOCOL)
        | (integers::word_at(pattern, 0) != can::PROTOCOL)
    {
        return Err(Refusal::MsgProtocolId);
    }
    let size = integers::word_at(mask, SIZE_IN);
    let tx = integers::word_at(mask, TX_FLAGS_IN);
    let same = (size == integers::word_at(pattern, SIZE_IN))
        & (tx == integers::word_at(pattern, TX_FLAGS_IN));
    let fits = between(1, MOST_SIZE, size) & can::takes_width(flags, tx / 0x100 % 2 == 1);
    if !(same & fits) {
        return Err(Refusal::InvalidMsg);
    }
    if place >= PLACES {
        return Err(Refusal::ExceededLimit);
    }
    Ok(())
}
