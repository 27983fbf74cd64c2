// The arguments of the events that have three numbers or more, or an n. Where they are bad the reader stays where it is.
#![tactic(auto)]

ghost use Rattle.events.specs.Found.{ReadsArguments};
ghost use Rattle.reader.specs.Cursor.{behind, Leaves};

use events::{Event, Giving, Plain};
use reader::Reader;

// The arguments of a read.
pub fn read(r: &mut Reader) -> Option<Event>
    ensures { ReadsArguments 11 r.old.recording.now r.old.at (behind result r.new.at) × Leaves result r.old r.new }
{
    let mut ahead = *r;
    let channel = ahead.next_number()?;
    let n = event_parts::at_most64(&mut ahead)?;
    *r = ahead;
    Some(Event::Read(channel, n))
}

// The arguments of a connect.
pub fn connect(r: &mut Reader) -> Option<Event>
    ensures { ReadsArguments 1 r.old.recording.now r.old.at (behind result r.new.at) × Leaves result r.old r.new }
{
    let mut ahead = *r;
    let line = ahead.next_number()?;
    let protocol = ahead.next_number()?;
    let flags = ahead.next_number()?;
    let rate = ahead.next_number()?;
    *r = ahead;
    Some(Event::Number(Giving::Connect(line, protocol, flags, rate)))
}

// The arguments of a set.
pub fn set(r: &mut Reader) -> Option<Event>
    ensures { ReadsArguments 16 r.old.recording.now r.old.at (behind result r.new.at) × Leaves result r.old r.new }
{
    let mut ahead = *r;
    let channel = ahead.next_number()?;
    let parameter = ahead.next_number()?;
    let value = ahead.next_number()?;
    *r = ahead;
    Some(Event::Code(Plain::Set(channel, parameter, value)))
}
