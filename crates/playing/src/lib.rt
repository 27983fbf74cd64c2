// Plays one event of a recording on a memory of the whole box that is known to be valid, and writes its answer.
#![tactic(auto)]

ghost use Rattle.std.specs.Prelude.{ℕ, ◌+◌, ◌*◌, ◌≤◌, List, T, length};
ghost use Rattle.codec.specs.Plain.{zeros};
ghost use Rattle.recording_sizes.specs.Sizes.{most, record_on, event_room};
ghost use Rattle.machine.specs.Channel.{take_next};
ghost use Rattle.machine.specs.Channel.{read as reads};
ghost use Rattle.machine.specs.Step.{call};
ghost use Rattle.memory.specs.Memory.{valid};
ghost use Rattle.events.specs.Events.{read_event};
ghost use Rattle.events.specs.Found.{event_of, EventThere};
ghost use Rattle.edition.specs.Edition.{rates_of};
ghost use Rattle.playing.specs.Step.{Answered, TurnedAs, Turned};

use events::Event;

// Plays a read: the records go straight to their place in the output, and the code and the count stand in front of them.
fn read_into(mem: &mut [u8], out: &mut [u8], at: usize, channel: u32, n: u32) -> usize
    requires { T (valid mem.old) × (n ≤ most) × (at + event_room ≤ length out.old) }
    ensures { (rates : List ℕ) → Answered rates (call channel (reads n (zeros (record_on channel * n)))) mem.old out.old at result mem.new out.new }
{
    let unit = recording_sizes::record_on(channel);
    let from = at + 2;
    let end = from + unit * (n as usize);
    let moved = box_traffic::read(mem, channel, n, &mut out[from..end]);
    out[at + 1] = moved.count as u8;
    out[at] = codes::code_of(moved.end) as u8;
    from + unit * (moved.count as usize)
}

// Plays a take: the record goes straight to its place in the output, and the code stands in front of it.
fn take_into(mem: &mut [u8], out: &mut [u8], at: usize, channel: u32) -> usize
    requires { T (valid mem.old) × (at + event_room ≤ length out.old) }
    ensures { (rates : List ℕ) → Answered rates (call channel (take_next (zeros (record_on channel)))) mem.old out.old at result mem.new out.new }
{
    let from = at + 1;
    let end = from + recording_sizes::record_on(channel);
    let answer = box_traffic::take(mem, channel, &mut out[from..end]);
    out[at] = codes::code_of(answer) as u8;
    match answer {
        Ok(_) => end,
        Err(_) => from,
    }
}

// Plays an event and writes its answer from a place on; gives the place after it.
fn play(
    mem: &mut [u8],
    rates: &[u32],
    recording: &[u8],
    e: Event,
    out: &mut [u8],
    at: usize,
) -> usize
    requires { T (valid mem.old) × EventThere recording.now e × (at + event_room ≤ length out.old) }
    ensures { Answered rates.now (event_of recording.now e) mem.old out.old at result mem.new out.new }
{
    match e {
        Event::Code(p) => {
            let answer = event_calls::plain_code(mem, rates, recording, p);
            answers::put_number(out, at, codes::code_of(answer))
        }
        Event::Number(g) => {
            let answer = event_calls::giving_answer(mem, rates, recording, g);
            answers::put_done(out, at, answer)
        }
        Event::Write {
            channel,
            n,
            from,
            end,
        } => {
            let moved = box_traffic::write(mem, channel, n, &recording[from..end]);
            answers::put_count(out, at, moved)
        }
        Event::Read(channel, n) => read_into(mem, out, at, channel, n),
        Event::Take(channel) => take_into(mem, out, at, channel),
    }
}

// Plays an event with the rates of its recording's edition.
pub fn play_by_edition(
    mem: &mut [u8],
    recording: &[u8],
    e: Event,
    out: &mut [u8],
    at: usize,
) -> usize
    requires { T (valid mem.old) × EventThere recording.now e × (at + event_room ≤ length out.old) }
    ensures { Answered (rates_of recording.now) (event_of recording.now e) mem.old out.old at result mem.new out.new }
{
    if edition::is_marked(recording) {
        let rates = can::RATES;
        return play(mem, &rates, recording, e, out, at);
    }
    let rates = can::OLD_RATES;
    play(mem, &rates, recording, e, out, at)
}

// Where an event leaves off: the place after it, and the place after its answer.
#[derive(Drop)]
pub struct Turn {
    pub next: usize,
    pub place: usize,
}

// Plays the event at a place of a recording; a bad one is answered as such, and ends the recording.
fn play_event(mem: &mut [u8], recording: &[u8], at: usize, out: &mut [u8], place: usize) -> Turn
    requires { T (valid mem.old) × (place + event_room ≤ length out.old) }
    ensures { TurnedAs (rates_of recording.now) (read_event recording.now at) recording.now mem.old out.old place result.next result.place mem.new out.new }
{
    let Some((e, next)) = event_reader::read_event(recording, at) else {
        let after = answers::put_number(out, place, recording_sizes::BAD_EVENT);
        return Turn {
            next: recording.len(),
            place: after,
        };
    };
    let after = play_by_edition(mem, recording, e, out, place);
    Turn { next, place: after }
}

// Plays what stands at a place of a recording: the mark of its edition, which writes no answer, or an event.
pub fn play_at(mem: &mut [u8], recording: &[u8], at: usize, out: &mut [u8], place: usize) -> Turn
    requires { T (valid mem.old) × (place + event_room ≤ length out.old) }
    ensures { Turned (rates_of recording.now) recording.now at mem.old out.old place result.next result.place mem.new out.new }
{
    if edition::is_mark(recording, at) {
        return Turn {
            next: edition::MARK,
            place,
        };
    }
    play_event(mem, recording, at, out, place)
}
