// Reads a line of a candump log: its time, its name, its identifier and its data. A time past the far one is not told apart from others as far.
#![tactic(auto)]

ghost use Rattle.std.specs.Prelude.{◌≡◌, ◌≤◌, length, drop};
ghost use Rattle.candump.specs.Line.{both_in, bus_in, few_in};
ghost use Rattle.text_reader.specs.Reading.{valued};
ghost use Rattle.log_reader.specs.Reading.{TimeReads, identified, data_good, FrameReads, Reads, StopsAs};

use candump::{BLANK, CLOSES, HASH, NOUGHT, OPENS, POINT, SECOND, SIXTEEN, Stop, TEN};

// A time in microseconds and the place after it.
#[derive(Clone, Copy)]
pub struct Time {
    pub time: u64,
    pub next: usize,
}

// A width and an identifier.
#[derive(Clone, Copy)]
pub struct Identifier {
    pub wide: bool,
    pub id: u32,
}

// A frame: its identifier and the place where its data begin.
#[derive(Clone, Copy)]
pub struct Frame {
    pub identifier: Identifier,
    pub digits: usize,
}

// What a line tells: a frame's time, its line, its identifier, and the place from which on its digits stand, to the end of the line.
#[derive(Clone, Copy)]
pub struct Logged {
    pub time: u64,
    pub line: u32,
    pub identifier: Identifier,
    pub digits: usize,
}

// Why a line tells nothing.
#[derive(Clone, Copy)]
pub enum LineError {
    Malformed,
    Unknown,
}

impl From<LineError> for Stop {
    ghost from_gives = { StopsAs };

    fn from(why: LineError) -> Stop {
        match why {
            LineError::Malformed => Stop::Malformed,
            LineError::Unknown => Stop::Unknown,
        }
    }
}

// The most digits of data: two for each of eight bytes.
const DATA_DIGITS: usize = 16;

// The time at the start of a line.
fn read_time(line: &[u8]) -> Option<Time>
    ensures { TimeReads line.now result }
{
    if line.len() < 1 {
        return None;
    }
    if line[0] != OPENS {
        return None;
    }
    let dot = text_reader::find(line, 1, POINT)?;
    if dot < 2 {
        return None;
    }
    let seconds = text_reader::number(&line[1..dot], TEN)?;
    let from = dot + 1;
    let end = text_reader::find(line, from, CLOSES)?;
    if end - from != candump::DECIMALS {
        return None;
    }
    let micro = text_reader::number(&line[from..end], TEN)?;
    Some(Time {
        time: seconds * SECOND + micro,
        next: end + 1,
    })
}

// The identifier of some digits: three are narrow, eight wide.
fn read_id(text: &[u8]) -> Option<Identifier>
    ensures { identified result ≡ both_in text.now }
{
    let wide = text.len() == candump::WIDE_DIGITS;
    if !wide & (text.len() != candump::NARROW_DIGITS) {
        return None;
    }
    let id = text_reader::number(text, SIXTEEN)?;
    if id > can::id_limit(wide) as u64 {
        return None;
    }
    Some(Identifier {
        wide,
        id: id as u32,
    })
}

// Are these the digits of at most eight bytes?
fn good_data(text: &[u8]) -> bool
    ensures { data_good result text.now ≡ few_in text.now }
{
    if text.len() > DATA_DIGITS {
        return false;
    }
    if text.len() % 2 == 1 {
        return false;
    }
    for c in text {
        if text_reader::digit(*c).is_none() {
            return false;
        }
    }
    true
}

// The line of can0 to can3.
fn read_name(name: &[u8]) -> Option<u32>
    ensures { result ≡ valued (bus_in name.now) }
{
    if name.len() != 4 {
        return None;
    }
    let can = (name[0] == 99) & (name[1] == 97) & (name[2] == 110);
    if !can {
        return None;
    }
    let last = name[3];
    if (NOUGHT <= last) & (last <= NOUGHT + 3) {
        return Some((last - NOUGHT) as u32);
    }
    None
}

// The frame from a place of a line on, to its end.
fn read_frame(line: &[u8], from: usize) -> Option<Frame>
    requires { from ≤ length line.now }
    ensures { FrameReads line.now from result }
{
    let mark = text_reader::find(line, from, HASH)?;
    let identifier = read_id(&line[from..mark])?;
    let digits = mark + 1;
    if !good_data(&line[digits..]) {
        return None;
    }
    Some(Frame { identifier, digits })
}

// A line, without its end.
pub fn read_line(text: &[u8]) -> Result<Logged, LineError>
    ensures { Reads text.now result }
{
    let Some(Time { time, next }) = read_time(text) else {
        return Err(LineError::Malformed);
    };
    if next >= text.len() {
        return Err(LineError::Malformed);
    }
    if text[next] != BLANK {
        return Err(LineError::Malformed);
    }
    let word = next + 1;
    let Some(end) = text_reader::find(text, word, BLANK) else {
        return Err(LineError::Malformed);
    };
    if end <= word {
        return Err(LineError::Malformed);
    }
    let Some(Frame { identifier, digits }) = read_frame(text, end + 1) else {
        return Err(LineError::Malformed);
    };
    let Some(line) = read_name(&text[word..end]) else {
        return Err(LineError::Unknown);
    };
    Ok(Logged {
        time,
        line,
        identifier,
        digits,
    })
}
