// The reader of events: each is read whole.
#![tactic(auto)]

ghost use Rattle.events.specs.Found.{ReadsArguments, ReadsEvent};
ghost use Rattle.reader.specs.Cursor.{behind, Leaves};

use events::{Event, Giving, Plain};
use reader::Reader;

// The arguments of the event of a number. Where they are bad the reader stays where it is.
fn arguments(r: &mut Reader, kind: u32) -> Option<Event>
    ensures { ReadsArguments kind r.old.recording.now r.old.at (behind result r.new.at) × Leaves result r.old r.new }
{
    let mut ahead = *r;
    let event = match kind {
        1 => number_events::connect(&mut ahead)?,
        2 => Event::Code(Plain::Disconnect(ahead.next_number()?)),
        3 => Event::Code(Plain::Close),
        4 => Event::Code(Plain::Advance(ahead.next_number()?)),
        5 => byte_events::frame(&mut ahead)?,
        6 => byte_events::filter(&mut ahead)?,
        7 => Event::Code(Plain::StopFilter(ahead.next_number()?, ahead.next_number()?)),
        8 => byte_events::periodic(&mut ahead)?,
        9 => Event::Code(Plain::StopPeriodic(ahead.next_number()?, ahead.next_number()?)),
        10 => byte_events::write(&mut ahead)?,
        11 => number_events::read(&mut ahead)?,
        12 => Event::Take(ahead.next_number()?),
        13 => Event::Code(Plain::Sent(ahead.next_number()?)),
        14 => Event::Code(Plain::Clear(ahead.next_number()?, ahead.next_number()?)),
        15 => Event::Number(Giving::Get(ahead.next_number()?, ahead.next_number()?)),
        16 => number_events::set(&mut ahead)?,
        _ => return None,
    };
    *r = ahead;
    Some(event)
}

// The event at a place of a recording, read whole, and the place after it; none where it is bad.
pub fn read_event(recording: &[u8], at: usize) -> Option<(Event, usize)>
    ensures { ReadsEvent recording.now at result }
{
    let mut r = Reader::new(recording, at);
    let kind = r.next_number()?;
    let event = arguments(&mut r, kind)?;
    Some((event, r.at))
}
