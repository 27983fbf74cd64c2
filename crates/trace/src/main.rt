// Shows the recording on standard input in words: each event, what a device answers to it from power-on, and the records of both. A line on standard error
// says that the program could not read or write.
#![tactic(auto)]

use codes::Refusal;
use device::MEMORY;
use events::{Event, Giving, Plain};
use std::io;
use trace_words::{part, text};

// The answer to an event that is answered by its code alone.
fn plain_code(
    memory: &mut [u8; MEMORY],
    rates: &[u32],
    recording: &[u8],
    e: &Plain,
) -> Result<(), Refusal> {
    match e {
        Plain::Disconnect(channel) => device::disconnect(memory, *channel),
        Plain::Close => device::close(memory),
        Plain::Advance(us) => device::advance(memory, *us),
        Plain::Frame {
            line,
            wide,
            id,
            from,
            end,
        } => device::frame(memory, *line, *wide, *id, part(recording, *from, *end)),
        Plain::StopFilter(channel, n) => device::stop_filter(memory, *channel, *n),
        Plain::StopPeriodic(channel, n) => device::stop_periodic(memory, *channel, *n),
        Plain::Sent(channel) => device::sent(memory, *channel),
        Plain::Clear(channel, kind) => device::clear(memory, *channel, *kind),
        Plain::Set(channel, parameter, value) => {
            device_channels::set_with(memory, rates, *channel, *parameter, *value)
        }
    }
}

// The answer to an event that is answered by a number too.
fn answer(
    memory: &mut [u8; MEMORY],
    rates: &[u32],
    recording: &[u8],
    e: &Giving,
) -> Result<u32, Refusal> {
    match e {
        Giving::Connect(line, protocol, flags, rate) => {
            device_channels::connect_with(memory, rates, *line, *protocol, *flags, *rate)
        }
        Giving::StartFilter {
            channel,
            kind,
            mask,
            pattern,
            end,
        } => device::start_filter(
            memory,
            *channel,
            *kind,
            part(recording, *mask, *pattern),
            part(recording, *pattern, *end),
        ),
        Giving::StartFlow {
            channel,
            kind,
            mask,
            pattern,
            flow,
            end,
        } => device::start_flow_filter(
            memory,
            *channel,
            *kind,
            part(recording, *mask, *pattern),
            part(recording, *pattern, *flow),
            part(recording, *flow, *end),
        ),
        Giving::StartPeriodic {
            channel,
            from,
            end,
            interval,
        } => device::start_periodic(memory, *channel, part(recording, *from, *end), *interval),
        Giving::Get(channel, parameter) => device::get(memory, *channel, *parameter),
    }
}

// A read, its answer and the records that it gave.
fn read(out: &impl Print, memory: &mut [u8; MEMORY], channel: u32, n: u32) -> io::Result<()> {
    let mut buffer = [0u8; recording_sizes::RECORDS];
    trace_events::read(out, channel, n)?;
    let moved = device::read(memory, channel, n, &mut buffer);
    trace_events::given_records(out, channel, moved, &buffer)
}

// A take, its answer and the record to send.
fn take(out: &impl Print, memory: &mut [u8; MEMORY], channel: u32) -> io::Result<()> {
    let mut buffer = [0u8; recording_sizes::ISO_RECORD];
    trace_events::take(out, channel)?;
    let answer = device::take(memory, channel, &mut buffer);
    trace_events::taken(out, channel, answer, &buffer)
}

// Is the ISO 15765 channel of a line open?
fn iso_open(memory: &[u8], line: u32) -> bool {
    if line >= places::LINES as u32 {
        return false;
    }
    let channel = places::LINES as u32 + 1 + line;
    device::last_error(memory, channel).is_ok()
}

// What a frame that was accepted is on the ISO 15765 channel of its line, where that is open; nothing of any other event.
fn heard(out: &impl Print, memory: &[u8], recording: &[u8], e: &Plain) -> io::Result<()> {
    if let Plain::Frame {
        line,
        wide: _,
        id: _,
        from: _,
        end: _,
    } = e
    {
        if iso_open(memory, *line) {
            trace_events::heard(out, recording, e)?;
        }
    }
    Ok(())
}

// An event that is answered by its code alone, and its answer.
fn coded(
    out: &impl Print,
    memory: &mut [u8; MEMORY],
    rates: &[u32],
    recording: &[u8],
    asked: &Plain,
) -> io::Result<()> {
    trace_events::plain(out, recording, asked)?;
    let answer = plain_code(memory, rates, recording, asked);
    trace_events::coded(out, answer)?;
    if answer.is_ok() {
        heard(out, memory, recording, asked)?;
    }
    Ok(())
}

// An event and its answer.
fn event(
    out: &impl Print,
    memory: &mut [u8; MEMORY],
    rates: &[u32],
    recording: &[u8],
    e: Event,
) -> io::Result<()> {
    match e {
        Event::Code(asked) => coded(out, memory, rates, recording, &asked),
        Event::Number(asked) => {
            trace_events::giving(out, &asked)?;
            let answer = answer(memory, rates, recording, &asked);
            trace_events::numbered(out, recording, &asked, answer)
        }
        Event::Write {
            channel,
            n,
            from,
            end,
        } => {
            trace_events::write(out, channel, n)?;
            let list = part(recording, from, end);
            let moved = device::write(memory, channel, n, list);
            trace_events::written(out, channel, moved, list)
        }
        Event::Read(channel, n) => read(out, memory, channel, n),
        Event::Take(channel) => take(out, memory, channel),
    }
}

// A bad event, where it is and why.
fn bad(out: &impl Print, recording: &[u8], at: usize) -> io::Result<()> {
    trace_words::bad(out, at)?;
    fault_words::reason(out, recording, fault::event(recording, at))
}

// Shows the events of a recording behind its mark, each with its answer, up to the end or a bad one. Each has a byte or more, so there are at most
// as many as bytes.
fn show(out: &impl Print, recording: &[u8], rates: &[u32]) -> io::Result<()> {
    let mut memory = [0u8; MEMORY];
    let _ = device::power_on(&mut memory);
    let mut at = edition::start_of(recording);
    for n in 1..=recording.len() {
        if at >= recording.len() {
            return Ok(());
        }
        trace_words::line(out, n)?;
        let Some((e, next)) = event_reader::read_event(recording, at) else {
            return bad(out, recording, at);
        };
        event(out, &mut memory, rates, recording, e)?;
        at = next;
    }
    Ok(())
}

// Says the edition of a recording, if it has one, and shows its events with the rates of it.
fn by_edition(out: &impl Print, recording: &[u8]) -> io::Result<()> {
    if edition::is_marked(recording) {
        text(out, b"edition 2: 250000 and 500000 bit/s\n")?;
        show(out, recording, &can::RATES)
    } else {
        show(out, recording, &can::OLD_RATES)
    }
}

// Shows a recording, or says that there is nothing in it or too much.
fn whole(out: &impl Print, recording: &[u8]) -> io::Result<()> {
    if recording.len() < 1 {
        text(out, b"an empty recording\n")
    } else if recording.len() >= input::READ {
        text(out, b"more than 32768 bytes, which counts as a bad event\n")
    } else {
        by_edition(out, recording)
    }
}

// The last line.
fn end(out: &impl Print) -> io::Result<()> {
    text(out, b"end of the replay\n")
}

// Shows a recording, and the last line; or says why it could not.
fn tell(out: &impl Print, recording: &[u8]) -> io::Result<()> {
    whole(out, recording)?;
    end(out)
}

// Reads the recording and shows it.
fn main(rt: HostRuntime) -> io::Result<()> {
    let mut buffer = [0u8; input::READ];
    let mut size = 0;
    if let Err(e) = input::read_all(&mut rt.stdin(), &mut buffer, &mut size) {
        return eprintln!(rt; "trace: standard input: {e}");
    }
    if let Err(e) = tell(&rt, input::first(&buffer, size)) {
        return eprintln!(rt; "trace: standard output: {e}");
    }
    Ok(())
}
