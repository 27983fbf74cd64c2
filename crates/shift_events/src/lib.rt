// What each event of a recording adds to the 44 numbers of a shift report, found out on the memory before it.
#![tactic(auto)]

ghost use Rattle.std.specs.Prelude.{◌≡◌, List, ℕ, T};
ghost use Rattle.machine.specs.Channel.{clear};
ghost use Rattle.machine.specs.Step.{call};
ghost use Rattle.memory.specs.Memory.{valid, load};
ghost use Rattle.events.specs.Found.{plain_of, event_of, PlainThere, EventThere};
ghost use Rattle.shift_cells.specs.Sums.{plus, Sums};
ghost use Rattle.shift_counts.specs.Adds.{adds};

use events::{Event, Plain};
use shift_places::DROPPED;

// The clear of the records held for reading.
const CLEAR_RX: u32 = 2;

// Counts a clear: that of the records held for reading alone.
fn count_clear(mem: &[u8], channel: u32, kind: u32, numbers: &mut [u32])
    requires { T (valid mem.now) × Sums numbers.old }
    ensures { (rates : List ℕ) → numbers.new ≡ plus numbers.old (adds rates (load mem.now) (call channel (clear kind))) }
{
    if kind != CLEAR_RX {
        return;
    }
    shift_counts::count_held(mem, channel, shift_places::CLEARED, numbers);
}

// Counts an event that is answered by its code alone.
fn count_plain(mem: &[u8], recording: &[u8], e: Plain, numbers: &mut [u32])
    requires { T (valid mem.now) × PlainThere recording.now e × Sums numbers.old }
    ensures { (rates : List ℕ) → numbers.new ≡ plus numbers.old (adds rates (load mem.now) (plain_of recording.now e)) }
{
    match e {
        Plain::Disconnect(channel) => shift_counts::count_held(mem, channel, DROPPED, numbers),
        Plain::Close => shift_counts::count_each_held(mem, DROPPED, numbers),
        Plain::Advance(_) => {}
        Plain::Frame {
            line,
            wide,
            id,
            from,
            end,
        } => shift_counts::count_frame(mem, line, wide, id, &recording[from..end], numbers),
        Plain::StopFilter(_, _) => {}
        Plain::StopPeriodic(_, _) => {}
        Plain::Sent(channel) => shift_counts::count_sent(mem, channel, numbers),
        Plain::Clear(channel, kind) => count_clear(mem, channel, kind, numbers),
        Plain::Set(_, _, _) => {}
    }
}

// Counts an event.
pub fn count(mem: &[u8], recording: &[u8], e: Event, numbers: &mut [u32])
    requires { T (valid mem.now) × EventThere recording.now e × Sums numbers.old }
    ensures { (rates : List ℕ) → numbers.new ≡ plus numbers.old (adds rates (load mem.now) (event_of recording.now e)) }
{
    match e {
        Event::Code(p) => count_plain(mem, recording, p, numbers),
        Event::Number(_) => {}
        Event::Write {
            channel: _,
            n: _,
            from: _,
            end: _,
        } => {}
        Event::Read(channel, n) => shift_counts::count_read(mem, channel, n, numbers),
        Event::Take(_) => {}
    }
}
