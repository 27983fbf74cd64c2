// Writes the events of a line into a recording, for callers that know that there is room, and says how many bytes they take.
#![tactic(auto)]

ghost use Rattle.std.specs.Prelude.{◌≡◌, ◌++◌, ◌+◌, ◌/◌, ◌≤◌, length};
ghost use Rattle.number.specs.Number.{bytes_of};
ghost use Rattle.answers.specs.Put.{Put};
ghost use Rattle.machine.specs.Limits.{most_bytes, last_line};
ghost use Rattle.machine.specs.Step.{advance, frame};
ghost use Rattle.candump.specs.Log.{event_bytes, bytes_all, advances};
ghost use Rattle.log_reader.specs.Reading.{data_of};
ghost use Rattle.log_events.specs.Data.{mark_of, GoodData};

use candump::SECOND;

// The numbers of the two events.
const ADVANCE: u32 = 4;

const FRAME: u32 = 5;

// The bytes of an advance of a whole second.
const SECOND_SIZE: u64 = 4;

// How many bytes the advances of a difference of time take.
pub fn advances_size(apart: u64) -> u64
    ensures { result ≡ length (bytes_all (advances apart)) }
{
    let seconds = SECOND_SIZE * (apart / SECOND);
    let rest = (apart % SECOND) as u32;
    if rest < 1 {
        return seconds;
    }
    seconds + 1 + answers::number_size(rest) as u64
}

// The width mark of a frame.
fn mark(wide: bool) -> u32
    ensures { result ≡ mark_of wide }
{
    u32::from(wide)
}

// Two numbers from a place on; gives the place after them.
fn put_pair(out: &mut [u8], at: usize, a: u32, b: u32) -> usize
    requires { at + length (bytes_of a ++ bytes_of b) ≤ length out.old }
    ensures { Put out.old at (bytes_of a ++ bytes_of b) result out.new }
{
    let next = answers::put_number(out, at, a);
    answers::put_number(out, next, b)
}

// The advances of a difference of time from a place on: full ones first, then the rest; gives the place after them.
pub fn put_advances(out: &mut [u8], at: usize, apart: u64) -> usize
    requires { at + length (bytes_all (advances apart)) ≤ length out.old }
    ensures { Put out.old at (bytes_all (advances apart)) result out.new }
{
    let full = apart / SECOND;
    let rest = (apart % SECOND) as u32;
    let mut place = at;
    for _k in 0..full {
        place = put_pair(out, place, ADVANCE, SECOND as u32);
    }
    if rest < 1 {
        return place;
    }
    put_pair(out, place, ADVANCE, rest)
}

// Data of two digits a byte from a place on; gives the place after them.
fn put_data(out: &mut [u8], at: usize, text: &[u8]) -> usize
    requires { GoodData text.now × (at + length (data_of text.now) ≤ length out.old) }
    ensures { Put out.old at (data_of text.now) result out.new }
{
    let mut place = at;
    for k in 0..text.len() / 2 {
        let high = text_reader::digit(text[2 * k]).unwrap_or(0);
        let low = text_reader::digit(text[2 * k + 1]).unwrap_or(0);
        out[place] = high * 16 + low;
        place += 1;
    }
    place
}

// The frame of a line from a place on; gives the place after it.
pub fn put_frame(out: &mut [u8], at: usize, line: u32, wide: bool, id: u32, text: &[u8]) -> usize
    requires { GoodData text.now × (length (data_of text.now) ≤ most_bytes) × (at + length (event_bytes (frame line (mark_of wide) id (data_of text.now))) ≤ length out.old) }
    ensures { Put out.old at (event_bytes (frame line (mark_of wide) id (data_of text.now))) result out.new }
{
    let count = (text.len() / 2) as u32;
    let named = put_pair(out, at, FRAME, line);
    let identified = put_pair(out, named, mark(wide), id);
    let counted = answers::put_number(out, identified, count);
    put_data(out, counted, text)
}

// How many bytes the frame of a line takes.
pub fn frame_size(line: u32, wide: bool, id: u32, text: &[u8]) -> u64
    requires { GoodData text.now × (line ≤ last_line) × (length (data_of text.now) ≤ most_bytes) }
    ensures { result ≡ length (event_bytes (frame line (mark_of wide) id (data_of text.now))) }
{
    4 + answers::number_size(id) as u64 + (text.len() / 2) as u64
}
