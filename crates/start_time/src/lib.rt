// Reads the start time of a log: seconds, with a point and one to six decimals where they are given.
#![tactic(auto)]

ghost use Rattle.std.specs.Prelude.{◌≡◌};
ghost use Rattle.text_reader.specs.Reading.{valued};
ghost use Rattle.start_time.specs.Start.{unit_of, decimals_in, start_of, within};

use candump::{LATEST, POINT, SECOND, TEN};
use std::fmt;

// Why a text is no start: it is over the limit, or it can't be read as one.
#[derive(Clone, Copy)]
pub enum StartError {
    Late,
    Unreadable,
}

impl fmt::Display for StartError {
    fn fmt<W: fmt::Write>(&self, f: &mut fmt::Formatter<W>) -> fmt::Result {
        match self {
            StartError::Late => write!(f, "it is over 4000000000 seconds"),
            StartError::Unreadable => {
                write!(
                    f,
                    "it must be seconds, alone or with a point and one to six decimals"
                )
            }
        }
    }
}

// The microseconds of one in the last of so many decimals; 0 where there are none or more than six.
fn unit(decimals: usize) -> u64
    ensures { result ≡ unit_of decimals }
{
    match decimals {
        1 => 100000,
        2 => 10000,
        3 => 1000,
        4 => 100,
        5 => 10,
        6 => 1,
        _ => 0,
    }
}

// The microseconds of the decimals behind a point.
fn read_decimals(text: &[u8]) -> Option<u64>
    ensures { result ≡ valued (decimals_in text.now) }
{
    let each = unit(text.len());
    if each < 1 {
        return None;
    }
    let v = text_reader::number(text, TEN)?;
    Some(v * each)
}

// A time as a start, if it is within the limit.
fn bounded(time: u64) -> Result<u64, StartError>
    ensures { result ≡ within time }
{
    if time > LATEST {
        return Err(StartError::Late);
    }
    Ok(time)
}

// The start that a text says, in microseconds.
pub fn read_start(text: &[u8]) -> Result<u64, StartError>
    ensures { result ≡ start_of text.now }
{
    let dot = text_reader::find(text, 0, POINT).unwrap_or(text.len());
    if dot < 1 {
        return Err(StartError::Unreadable);
    }
    let Some(seconds) = text_reader::number(&text[..dot], TEN) else {
        return Err(StartError::Unreadable);
    };
    if dot >= text.len() {
        return bounded(seconds * SECOND);
    }
    let from = dot + 1;
    let Some(micro) = read_decimals(&text[from..]) else {
        return Err(StartError::Unreadable);
    };
    bounded(seconds * SECOND + micro)
}
