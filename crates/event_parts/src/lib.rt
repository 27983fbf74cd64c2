// The part of an event that is neither a number alone nor raw bytes.
#![tactic(auto)]

ghost use Rattle.events.specs.Events.{at_most64};
ghost use Rattle.reader.specs.Cursor.{Gave};

use reader::Reader;

// An n: a number, which is bad over 64. Where it is bad the reader stays where it is.
pub fn at_most64(r: &mut Reader) -> Option<u32>
    ensures { Gave at_most64 r.old result r.new }
{
    let mut ahead = *r;
    let n = ahead.next_number()?;
    if n > recording_sizes::MOST {
        return None;
    }
    *r = ahead;
    Some(n)
}
