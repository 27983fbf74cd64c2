// Exports the bus frames of a recording as the lines of a candump log, in pieces of whole lines.
#![tactic(auto)]

ghost use Rattle.std.specs.Prelude.{◌≡◌, ◌+◌, ◌*◌, ◌≤◌, ◌<◌, length};
ghost use Rattle.recording_sizes.specs.Sizes.{longest};
ghost use Rattle.machine.specs.Step.{frame, advance};
ghost use Rattle.answers.specs.Put.{Put};
ghost use Rattle.candump.specs.Line.{second};
ghost use Rattle.candump.specs.Log.{latest, lasts};
ghost use Rattle.events.specs.Events.{read_event};
ghost use Rattle.events.specs.Found.{between, There, plain_of, event_of, PlainThere, EventThere};
ghost use Rattle.exporting.specs.Pieces.{line_room, line_of, code_of, Exports, Reaches, event_at, latest_at, leaves, told, written, goes_on, exports};

use codes::Refusal;
use events::{Event, Plain};
use recording_sizes::LONGEST;

// The room of a line with its end.
pub const LINE_ROOM: usize = 51;

// A piece: the place in the recording and the time at which it left off, and how many bytes of the output it wrote.
#[derive(Clone, Copy)]
pub struct Exported {
    pub at: usize,
    pub time: u64,
    pub length: usize,
}

// Where an event leaves off: the time behind it, and the place after its line.
#[derive(Drop)]
pub struct Turn {
    pub time: u64,
    pub place: usize,
}

// Where one leaves off in the recording too.
#[derive(Drop)]
pub struct Reached {
    pub next: usize,
    pub time: u64,
    pub place: usize,
}

// Writes the line of a bus frame that is answered 0x00, and nothing for another; gives the place after it.
fn put_logged(
    line: u32,
    wide: u32,
    id: u32,
    bytes: &[u8],
    time: u64,
    out: &mut [u8],
    place: usize,
) -> usize
    requires { (time ≤ latest + second * longest) × (place + line_room ≤ length out.old) }
    ensures { Put out.old place (line_of time (frame line wide id bytes.now)) result out.new }
{
    if line > 3 {
        return place;
    }
    let code = codes::code_of(frame_tests::frame_code(wide, id, bytes));
    if code != codes::STATUS_NOERROR {
        return place;
    }
    log_writer::put_line(out, place, time, line, wide == 1, id, bytes)
}

// The time behind an advance: one that is refused adds nothing.
fn after_advance(time: u64, us: u32) -> u64
    requires { time ≤ latest + second * longest }
    ensures { result ≡ time + lasts (advance us) (code_of (advance us)) }
{
    if us > candump::SECOND as u32 {
        return time;
    }
    time + us as u64
}

// An event that is answered by its code alone: a frame's line, an advance's time.
fn export_plain(recording: &[u8], p: Plain, time: u64, out: &mut [u8], place: usize) -> Turn
    requires { PlainThere recording.now p × (time ≤ latest + second * longest) × (place + line_room ≤ length out.old) }
    ensures { Exports (plain_of recording.now p) time out.old place result.time result.place out.new }
{
    match p {
        Plain::Advance(us) => Turn {
            time: after_advance(time, us),
            place,
        },
        Plain::Frame {
            line,
            wide,
            id,
            from,
            end,
        } => {
            let next = put_logged(line, wide, id, &recording[from..end], time, out, place);
            Turn { time, place: next }
        }
        Plain::Disconnect(_) => Turn { time, place },
        Plain::Close => Turn { time, place },
        Plain::StopFilter(_, _) => Turn { time, place },
        Plain::StopPeriodic(_, _) => Turn { time, place },
        Plain::Sent(_) => Turn { time, place },
        Plain::Clear(_, _) => Turn { time, place },
        Plain::Set(_, _, _) => Turn { time, place },
    }
}

// An event: its line, if it is a frame that was answered 0x00, and the time behind it.
fn export_event(recording: &[u8], e: Event, time: u64, out: &mut [u8], place: usize) -> Turn
    requires { EventThere recording.now e × (time ≤ latest + second * longest) × (place + line_room ≤ length out.old) }
    ensures { Exports (event_of recording.now e) time out.old place result.time result.place out.new }
{
    match e {
        Event::Code(p) => export_plain(recording, p, time, out, place),
        Event::Number(_) => Turn { time, place },
        Event::Write {
            channel: _,
            n: _,
            from: _,
            end: _,
        } => Turn { time, place },
        Event::Read(_, _) => Turn { time, place },
        Event::Take(_) => Turn { time, place },
    }
}

// The event at a place of a recording; a bad one ends it.
fn export_at(recording: &[u8], at: usize, time: u64, out: &mut [u8], place: usize) -> Reached
    requires { (time ≤ latest + second * longest) × (place + line_room ≤ length out.old) }
    ensures { Reaches (length recording.now) (read_event recording.now at) time out.old place result.next result.time result.place out.new }
{
    let Some((e, next)) = event_reader::read_event(recording, at) else {
        return Reached {
            next: recording.len(),
            time,
            place,
        };
    };
    let turn = export_event(recording, e, time, out, place);
    Reached {
        next,
        time: turn.time,
        place: turn.place,
    }
}

// Event by event from a place on, to the recording's end or a bad event, or until the output is past the last place with room for a line.
fn export_events(recording: &[u8], at: usize, start: u64, out: &mut [u8], last: usize) -> Reached
    requires { (at ≤ length recording.now) × (length recording.now ≤ longest) × (start ≤ latest + second * at) × (last + line_room ≡ length out.old) }
    ensures { leaves 0x00 result.next result.time result.place out.new ≡ written (goes_on (length recording.now) recording.now at start (length out.old)) out.old }
{
    let mut next = at;
    let mut time = start;
    let mut place = 0;
    // each event says where the next begins, which no `for` counts
    while (next < recording.len()) & (place <= last) {
        let reached = export_at(recording, next, time, out, place);
        next = reached.next;
        time = reached.time;
        place = reached.place;
    }
    Reached { next, time, place }
}

// Where the events from a place on begin: behind the mark, if that is next.
fn event_at(recording: &[u8], at: usize) -> usize
    ensures { result ≡ event_at recording.now at }
{
    if edition::is_mark(recording, at) {
        return edition::MARK;
    }
    at
}

// The latest time at a place.
fn latest_at(at: usize) -> u64
    ensures { result ≡ latest_at at }
{
    if at <= LONGEST {
        return candump::LATEST + candump::SECOND * at as u64;
    }
    candump::LATEST + candump::SECOND * LONGEST as u64
}

// Exports a piece of a recording from a place and a time in microseconds on, into a lent buffer: 0x04 where the buffer has no room for a line, 0x0A
// for a time over the limit, and nothing changes; else the place and the time at which it left off, and how many bytes it wrote. The place and the
// time are all that the next piece needs; the first has place 0 and the start time.
pub fn export(time: u64, recording: &[u8], at: usize, out: &mut [u8]) -> Result<Exported, Refusal>
    ensures { told at time result out.new ≡ exports time recording.now at out.old }
{
    if out.len() < LINE_ROOM {
        return Err(Refusal::NullParameter);
    }
    if time > latest_at(at) {
        return Err(Refusal::InvalidMsg);
    }
    if at >= recording.len() {
        return Ok(Exported {
            at,
            time,
            length: 0,
        });
    }
    if recording.len() > LONGEST {
        return Ok(Exported {
            at: recording.len(),
            time,
            length: 0,
        });
    }
    let last = out.len() - LINE_ROOM;
    let end = export_events(recording, event_at(recording, at), time, out, last);
    Ok(Exported {
        at: end.next,
        time: end.time,
        length: end.place,
    })
}
