// Imports a candump log into a recording: its lines one after the other, until one stops it.
#![tactic(auto)]

ghost use Rattle.std.specs.Prelude.{◌≡◌, ◌+◌, ◌*◌, ◌≤◌, length};
ghost use Rattle.machine.specs.Limits.{most_bytes, last_line};
ghost use Rattle.candump.specs.Line.{second, line_in, tells};
ghost use Rattle.candump.specs.Log.{latest, room, imported};
ghost use Rattle.log_reader.specs.Reading.{data_of};
ghost use Rattle.log_events.specs.Data.{GoodData};
ghost use Rattle.importing.specs.Step.{stepped, line_step, logged_as};
ghost use Rattle.importing.specs.Promise.{answered, told, written, imports};

use candump::{NEWLINE, Stop};
use codes::Refusal;
use log_reader::Logged;
use recording_sizes::LONGEST;

// What a line leaves: the place after its events, and its time.
#[derive(Clone, Copy)]
pub struct Step {
    pub place: usize,
    pub time: u64,
}

// A line that stopped an import, by its number, and why it did.
#[derive(Clone, Copy)]
pub struct Stopped {
    pub line: usize,
    pub why: Stop,
}

// An import: the bytes of the recording, and the line that stopped it, if one did.
#[derive(Clone, Copy)]
pub struct Imported {
    pub length: usize,
    pub stopped: Option<Stopped>,
}

// Writes the advances and the frame of a line that was read, behind one of another time, where it isn't earlier and fits.
fn take_frame(
    time: u64,
    frame: Logged,
    digits: &[u8],
    out: &mut [u8],
    place: usize,
) -> Result<Step, Stop>
    requires { GoodData digits.now × (frame.line ≤ last_line) × (length (data_of digits.now) ≤ most_bytes) × (room ≤ length out.old) × (place ≤ room) }
    ensures { stepped time place result out.new ≡ line_step time place out.old (tells (logged_as frame.time frame.line frame.identifier.wide frame.identifier.id (data_of digits.now))) }
{
    if frame.time < time {
        return Err(Stop::GoesBack);
    }
    let apart = frame.time - time;
    let (wide, id) = (frame.identifier.wide, frame.identifier.id);
    let size = log_events::advances_size(apart)
        + log_events::frame_size(frame.line, wide, id, digits);
    if place as u64 + size > LONGEST as u64 {
        return Err(Stop::NoRoom);
    }
    let from = log_events::put_advances(out, place, apart);
    let next = log_events::put_frame(out, from, frame.line, wide, id, digits);
    Ok(Step {
        place: next,
        time: frame.time,
    })
}

// Takes a line, behind one of a time: its events are written from a place on, or it stops the import and leaves nothing.
fn take_line(time: u64, text: &[u8], out: &mut [u8], place: usize) -> Result<Step, Stop>
    requires { (time ≤ latest + second * room) × (room ≤ length out.old) × (place ≤ room) }
    ensures { stepped time place result out.new ≡ line_step time place out.old (line_in text.now) }
{
    let frame = log_reader::read_line(text)?;
    take_frame(time, frame, &text[frame.digits..], out, place)
}

// Takes the lines of a log one after the other, until one stops the import.
fn import_lines(start: u64, log: &[u8], out: &mut [u8]) -> Imported
    requires { (start ≤ latest) × (room ≤ length out.old) }
    ensures { answered result out.new ≡ written (imported start log.now) out.old }
{
    let mut at = 0;
    let mut lines = 0;
    let mut place = 0;
    let mut time = start;
    // each line says where the next begins, which no `for` counts
    while at < log.len() {
        let end = text_reader::find(log, at, NEWLINE).unwrap_or(log.len());
        lines += 1;
        match take_line(time, &log[at..end], out, place) {
            Ok(step) => {
                place = step.place;
                time = step.time;
            }
            Err(why) => {
                return Imported {
                    length: place,
                    stopped: Some(Stopped { line: lines, why }),
                };
            }
        }
        at = end + 1;
    }
    Imported {
        length: place,
        stopped: None,
    }
}

// Imports a log into a lent buffer, from a start time in microseconds: 0x04 where the buffer is too short for the longest recording, 0x0A for a start
// over the limit, and nothing changes; else how many bytes of recording stand at the buffer's start, and the line that stopped the import and why.
pub fn import(start: u64, log: &[u8], out: &mut [u8]) -> Result<Imported, Refusal>
    ensures { told result out.new ≡ imports start log.now out.old }
{
    if out.len() < LONGEST {
        return Err(Refusal::NullParameter);
    }
    if start > candump::LATEST {
        return Err(Refusal::InvalidMsg);
    }
    Ok(import_lines(start, log, out))
}
