// The shift report of a recording: each event is read, counted on the memory before it, and played.
#![tactic(auto)]

ghost use Rattle.std.specs.Prelude.{◌≡◌, ◌≤◌, T, length};
ghost use Rattle.codec.specs.Plain.{zeros};
ghost use Rattle.codes.specs.Code.{code_of};
ghost use Rattle.recording_sizes.specs.Sizes.{longest, event_room};
ghost use Rattle.whole.specs.Device.{power_on};
ghost use Rattle.memory.specs.Memory.{image, valid};
ghost use Rattle.edition.specs.Edition.{rates_of};
ghost use Rattle.events.specs.Events.{read_event};
ghost use Rattle.shift_places.specs.Places.{of_report};
ghost use Rattle.shift_cells.specs.Sums.{Sums};
ghost use Rattle.shift_report.specs.Promise.{tells, reported};
ghost use Rattle.shift_report.specs.Counting.{CountedAs, Counting, AllCounted};

use codes::Refusal;

// Every number is 0.
fn clear(numbers: &mut [u32])
    ensures { numbers.new ≡ zeros (length numbers.old) }
{
    numbers.fill(0);
}

// Counts and plays the event at a place, and gives the place after it; a bad one ends the recording.
fn count_at(
    mem: &mut [u8],
    recording: &[u8],
    at: usize,
    numbers: &mut [u32],
    out: &mut [u8],
) -> usize
    requires { T (valid mem.old) × Sums numbers.old × (event_room ≤ length out.old) }
    ensures { CountedAs (rates_of recording.now) (read_event recording.now at) recording.now mem.old numbers.old result mem.new numbers.new }
{
    let Some((e, next)) = event_reader::read_event(recording, at) else {
        return recording.len();
    };
    shift_events::count(mem, recording, e, numbers);
    playing::play_by_edition(mem, recording, e, out, 0);
    next
}

// Counts and plays every event from a place on. The answers go to a buffer and are not looked at.
fn count_events(mem: &mut [u8], recording: &[u8], start: usize, numbers: &mut [u32], out: &mut [u8])
    requires { Counting recording.now mem.old numbers.old start × (length recording.now ≤ longest) × (event_room ≤ length out.old) }
    ensures { AllCounted recording.now mem.new numbers.new }
{
    let mut at = start;
    // each event says where the next begins, which no `for` counts
    while at < recording.len() {
        at = count_at(mem, recording, at, numbers, out);
    }
}

// The same from power-on, behind the mark of the edition; a recording that is too long has no events.
fn count_all(mem: &mut [u8], recording: &[u8], numbers: &mut [u32])
    requires { (mem.old ≡ image power_on) × (numbers.old ≡ zeros of_report) }
    ensures { AllCounted recording.now mem.new numbers.new }
{
    if recording.len() > recording_sizes::LONGEST {
        return;
    }
    let start = edition::start_of(recording);
    let mut out = [0u8; recording_sizes::EVENT_ROOM];
    count_events(mem, recording, start, numbers, &mut out);
}

// Reports a recording: 0x04 where the memory is not as long as a box's or there are other than 44 numbers, and nothing changes; else 0x00, the 44
// numbers, eleven a channel, and the memory of the box after the recording, from power-on whatever it was before.
pub fn report(mem: &mut [u8], recording: &[u8], numbers: &mut [u32]) -> Result<(), Refusal>
    ensures { tells (code_of result) numbers.new mem.new ≡ reported mem.old recording.now numbers.old }
{
    if mem.len() != box_places::BOX {
        return Err(Refusal::NullParameter);
    }
    if numbers.len() != shift_places::REPORT {
        return Err(Refusal::NullParameter);
    }
    octets::zero(mem);
    clear(numbers);
    count_all(mem, recording, numbers);
    shift_counts::count_each_held(mem, shift_places::HELD, numbers);
    Ok(())
}
