// The arguments of the events that lend bytes. Where they are bad the reader stays where it is.
#![tactic(auto)]

ghost use Rattle.events.specs.Found.{ReadsArguments};
ghost use Rattle.reader.specs.Cursor.{behind, Leaves};

use events::{Event, Giving, Plain};
use reader::Reader;

// The arguments of a write.
pub fn write(r: &mut Reader) -> Option<Event>
    ensures { ReadsArguments 10 r.old.recording.now r.old.at (behind result r.new.at) × Leaves result r.old r.new }
{
    let mut ahead = *r;
    let channel = ahead.next_number()?;
    let n = event_parts::at_most64(&mut ahead)?;
    let size = recording_sizes::record_on(channel);
    let (from, end) = ahead.next_bytes(size * n as usize)?;
    *r = ahead;
    Some(Event::Write {
        channel,
        n,
        from,
        end,
    })
}

// The arguments of a bus frame.
pub fn frame(r: &mut Reader) -> Option<Event>
    ensures { ReadsArguments 5 r.old.recording.now r.old.at (behind result r.new.at) × Leaves result r.old r.new }
{
    let mut ahead = *r;
    let line = ahead.next_number()?;
    let wide = ahead.next_number()?;
    let id = ahead.next_number()?;
    let n = event_parts::at_most64(&mut ahead)?;
    let (from, end) = ahead.next_bytes(n as usize)?;
    *r = ahead;
    Some(Event::Code(Plain::Frame {
        line,
        wide,
        id,
        from,
        end,
    }))
}

// The arguments of a start of a filter: a mask and a pattern, and on channels 5 to 8 a flow.
pub fn filter(r: &mut Reader) -> Option<Event>
    ensures { ReadsArguments 6 r.old.recording.now r.old.at (behind result r.new.at) × Leaves result r.old r.new }
{
    let mut ahead = *r;
    let channel = ahead.next_number()?;
    let kind = ahead.next_number()?;
    let size = recording_sizes::record_on(channel);
    let (mask, pattern) = ahead.next_bytes(size)?;
    let (_, flow) = ahead.next_bytes(size)?;
    if !recording_sizes::on_iso(channel) {
        *r = ahead;
        return Some(Event::Number(Giving::StartFilter {
            channel,
            kind,
            mask,
            pattern,
            end: flow,
        }));
    }
    let (_, end) = ahead.next_bytes(size)?;
    *r = ahead;
    Some(Event::Number(Giving::StartFlow {
        channel,
        kind,
        mask,
        pattern,
        flow,
        end,
    }))
}

// The arguments of a start of a periodic.
pub fn periodic(r: &mut Reader) -> Option<Event>
    ensures { ReadsArguments 8 r.old.recording.now r.old.at (behind result r.new.at) × Leaves result r.old r.new }
{
    let mut ahead = *r;
    let channel = ahead.next_number()?;
    let size = recording_sizes::record_on(channel);
    let (from, end) = ahead.next_bytes(size)?;
    let interval = ahead.next_number()?;
    *r = ahead;
    Some(Event::Number(Giving::StartPeriodic {
        channel,
        from,
        end,
        interval,
    }))
}
