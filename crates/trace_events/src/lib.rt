// Events, records and answers of a device, in words.
#![tactic(auto)]

use codes::{Moved, Refusal};
use events::{Giving, Plain};
use std::io;
use trace_words::{byte_at, bytes, code, hex, named, number, part, records, text, two};

// The number of four bytes, the lowest first.
fn word(a: u8, b: u8, c: u8, d: u8) -> u32 {
    a as u32 + b as u32 * 256 + c as u32 * 65536 + d as u32 * 16777216
}

// The number in a record's four bytes from a place on.
fn field(record: &[u8], at: usize) -> u32 {
    let f = part(record, at, record.len());
    word(byte_at(f, 0), byte_at(f, 1), byte_at(f, 2), byte_at(f, 3))
}

// The bytes of a record's data that its size takes in, of those from a place on.
fn stored(record: &[u8], at: usize) -> &[u8] {
    let size = field(record, 16) as usize;
    part(
        record,
        at,
        24 + input::first(part(record, 24, record.len()), size).len(),
    )
}

// What both a message and half a filter have, and the line's end.
fn fields(out: &impl Print, record: &[u8]) -> io::Result<()> {
    hex(out, b", TxFlags 0x", field(record, 8))?;
    number(out, b", size ", field(record, 16))?;
    number(out, b", protocol ", field(record, 0))?;
    text(out, b"\n")
}

// The identifier of a message: four bytes, the highest first.
fn identifier(f: &[u8]) -> u32 {
    word(byte_at(f, 3), byte_at(f, 2), byte_at(f, 1), byte_at(f, 0))
}

// A message: its identifier behind a label, its data and its other fields.
fn message(out: &impl Print, label: &[u8], record: &[u8]) -> io::Result<()> {
    hex(out, label, identifier(part(record, 24, record.len())))?;
    text(out, b", data")?;
    bytes(out, stored(record, 28))?;
    number(out, b", time ", field(record, 12))?;
    hex(out, b" us, RxStatus 0x", field(record, 4))?;
    fields(out, record)
}

// A record, behind what it is by its RxStatus where that is told.
fn record(out: &impl Print, told: bool, list: &[u8]) -> io::Result<()> {
    if told {
        text(out, b"         ")?;
        iso_words::record(out, field(list, 4))?;
        message(out, b", identifier 0x", list)
    } else {
        message(out, b"         identifier 0x", list)
    }
}

// A record that a take gave: which frame it is, where it is an ISO 15765 channel's.
fn frame_record(out: &impl Print, channel: u32, list: &[u8]) -> io::Result<()> {
    if recording_sizes::on_iso(channel) {
        text(out, b"         ")?;
        iso_words::frame(out, stored(list, 28))?;
        message(out, b", identifier 0x", list)
    } else {
        record(out, false, list)
    }
}

// A filter's mask, pattern or flow: its bytes and its other fields.
fn half(out: &impl Print, label: &[u8], record: &[u8]) -> io::Result<()> {
    text(out, label)?;
    bytes(out, stored(record, 24))?;
    fields(out, record)
}

// The records of a channel, one after the other: lent, or given by it. What a record given is, an ISO 15765 channel tells by its RxStatus.
fn channel_records(out: &impl Print, channel: u32, given: bool, list: &[u8]) -> io::Result<()> {
    let size = recording_sizes::record_on(channel);
    let told = given & recording_sizes::on_iso(channel);
    let mut at = 0;
    // `step_by` was tried: no bound of a step is known of it, so that `at + size` and the end of the loop stay open
    while at < list.len() {
        record(out, told, part(list, at, at + size))?;
        at += size;
    }
    Ok(())
}

// The width mark of a bus frame.
fn width(out: &impl Print, mark: u32) -> io::Result<()> {
    match mark {
        0 => text(out, b", narrow"),
        1 => text(out, b", wide"),
        _ => number(out, b", width mark ", mark),
    }
}

// A bus frame.
fn frame(out: &impl Print, line: u32, wide: u32, id: u32, list: &[u8]) -> io::Result<()> {
    number(out, b"frame on line ", line)?;
    width(out, wide)?;
    hex(out, b", identifier 0x", id)?;
    text(out, b", data")?;
    bytes(out, list)
}

// What the frame of an event is on an ISO 15765 channel of its line, on a line of its own; nothing of any other event.
pub fn heard(out: &impl Print, recording: &[u8], e: &Plain) -> io::Result<()> {
    if let Plain::Frame {
        line: _,
        wide: _,
        id: _,
        from,
        end,
    } = e
    {
        text(out, b"         on ISO 15765: ")?;
        iso_words::frame(out, part(recording, *from, *end))?;
        text(out, b"\n")?;
    }
    Ok(())
}

// A channel and a parameter of it, behind a label.
fn parameter(out: &impl Print, label: &[u8], channel: u32, n: u32) -> io::Result<()> {
    number(out, label, channel)?;
    named(out, b", parameter ", n, b",DATA_RATE,,LOOPBACK")
}

// A parameter's new value.
fn set(out: &impl Print, channel: u32, n: u32, value: u32) -> io::Result<()> {
    parameter(out, b"set channel ", channel, n)?;
    number(out, b" to ", value)
}

// A clear.
fn clear(out: &impl Print, channel: u32, kind: u32) -> io::Result<()> {
    number(out, b"clear channel ", channel)?;
    named(
        out,
        b", kind ",
        kind,
        b",written records,receive queue,periodics,filters",
    )
}

// An advance of the clock.
fn advance(out: &impl Print, us: u32) -> io::Result<()> {
    number(out, b"advance ", us)?;
    text(out, b" us")
}

// An event that is answered by its code alone.
pub fn plain(out: &impl Print, recording: &[u8], e: &Plain) -> io::Result<()> {
    match e {
        Plain::Disconnect(channel) => number(out, b"disconnect channel ", *channel),
        Plain::Close => text(out, b"close"),
        Plain::Advance(us) => advance(out, *us),
        Plain::Frame {
            line,
            wide,
            id,
            from,
            end,
        } => frame(out, *line, *wide, *id, part(recording, *from, *end)),
        Plain::StopFilter(channel, n) => two(
            out,
            b"stop filter, channel ",
            *channel,
            b", filter ",
            *n,
        ),
        Plain::StopPeriodic(channel, n) => {
            two(
                out,
                b"stop periodic, channel ",
                *channel,
                b", periodic ",
                *n,
            )
        }
        Plain::Sent(channel) => number(out, b"sent, channel ", *channel),
        Plain::Clear(channel, kind) => clear(out, *channel, *kind),
        Plain::Set(channel, n, value) => set(out, *channel, *n, *value),
    }
}

// A connect.
fn connect(out: &impl Print, line: u32, protocol: u32, flags: u32, rate: u32) -> io::Result<()> {
    number(out, b"connect line ", line)?;
    named(out, b", protocol ", protocol, b",,,,,CAN,ISO15765")?;
    trace_words::flags(out, flags)?;
    number(out, b", ", rate)?;
    text(out, b" bit/s")
}

// A start of a filter.
fn start_filter(out: &impl Print, channel: u32, kind: u32) -> io::Result<()> {
    number(out, b"start filter, channel ", channel)?;
    named(
        out,
        b", type ",
        kind,
        b",PASS_FILTER,BLOCK_FILTER,FLOW_CONTROL_FILTER",
    )
}

// A start of a periodic.
fn start_periodic(out: &impl Print, channel: u32, interval: u32) -> io::Result<()> {
    two(
        out,
        b"start periodic, channel ",
        channel,
        b", every ",
        interval,
    )?;
    text(out, b" ms")
}

// An event that is answered by a number too.
pub fn giving(out: &impl Print, e: &Giving) -> io::Result<()> {
    match e {
        Giving::Connect(line, protocol, flags, rate) => connect(
            out, *line, *protocol, *flags, *rate,
        ),
        Giving::StartFilter {
            channel,
            kind,
            mask: _,
            pattern: _,
            end: _,
        } => start_filter(out, *channel, *kind),
        Giving::StartFlow {
            channel,
            kind,
            mask: _,
            pattern: _,
            flow: _,
            end: _,
        } => start_filter(out, *channel, *kind),
        Giving::StartPeriodic {
            channel,
            from: _,
            end: _,
            interval,
        } => start_periodic(out, *channel, *interval),
        Giving::Get(channel, n) => parameter(out, b"get channel ", *channel, *n),
    }
}

// The records that such an event lends, a line each.
fn lent(out: &impl Print, recording: &[u8], e: &Giving) -> io::Result<()> {
    match e {
        Giving::Connect(_, _, _, _) => Ok(()),
        Giving::StartFilter {
            channel: _,
            kind: _,
            mask,
            pattern,
            end,
        } => {
            half(out, b"         mask", part(recording, *mask, *pattern))?;
            half(out, b"         pattern", part(recording, *pattern, *end))
        }
        Giving::StartFlow {
            channel: _,
            kind: _,
            mask,
            pattern,
            flow,
            end,
        } => {
            half(out, b"         mask", part(recording, *mask, *pattern))?;
            half(out, b"         pattern", part(recording, *pattern, *flow))?;
            half(out, b"         flow", part(recording, *flow, *end))
        }
        Giving::StartPeriodic {
            channel,
            from,
            end,
            interval: _,
        } => channel_records(out, *channel, false, part(recording, *from, *end)),
        Giving::Get(_, _) => Ok(()),
    }
}

// A code behind an arrow.
fn arrow(out: &impl Print, n: u32) -> io::Result<()> {
    text(out, b" -> ")?;
    code(out, n)
}

// The answer to an event that is answered by its code alone.
pub fn coded(out: &impl Print, answer: Result<(), Refusal>) -> io::Result<()> {
    arrow(out, codes::code_of(answer))?;
    text(out, b"\n")
}

// The number that such an event gives where it is done.
fn given(out: &impl Print, e: &Giving, value: u32) -> io::Result<()> {
    match e {
        Giving::Connect(_, _, _, _) => number(out, b", channel ", value),
        Giving::StartFilter {
            channel: _,
            kind: _,
            mask: _,
            pattern: _,
            end: _,
        } => number(out, b", filter ", value),
        Giving::StartFlow {
            channel: _,
            kind: _,
            mask: _,
            pattern: _,
            flow: _,
            end: _,
        } => number(out, b", filter ", value),
        Giving::StartPeriodic {
            channel: _,
            from: _,
            end: _,
            interval: _,
        } => number(out, b", periodic ", value),
        Giving::Get(_, _) => number(out, b", value ", value),
    }
}

// The answer to an event that is answered by a number too, and the records that it lends.
pub fn numbered(
    out: &impl Print,
    recording: &[u8],
    e: &Giving,
    answer: Result<u32, Refusal>,
) -> io::Result<()> {
    arrow(out, codes::code_of(answer))?;
    if let Ok(value) = answer {
        given(out, e, value)?;
    }
    text(out, b"\n")?;
    lent(out, recording, e)
}

// The code of a read or a write, and how many records it gave or took.
fn counted(out: &impl Print, moved: Moved) -> io::Result<()> {
    arrow(out, codes::code_of(moved.end))?;
    records(out, b", ", moved.count)?;
    text(out, b"\n")
}

// A write.
pub fn write(out: &impl Print, channel: u32, n: u32) -> io::Result<()> {
    number(out, b"write channel ", channel)?;
    records(out, b", ", n)
}

// The answer to a write on a channel, and its records.
pub fn written(out: &impl Print, channel: u32, moved: Moved, list: &[u8]) -> io::Result<()> {
    counted(out, moved)?;
    channel_records(out, channel, false, list)
}

// A read.
pub fn read(out: &impl Print, channel: u32, n: u32) -> io::Result<()> {
    number(out, b"read channel ", channel)?;
    records(out, b", ", n)
}

// The answer to a read of a channel, and the records that it gave.
pub fn given_records(
    out: &impl Print,
    channel: u32,
    moved: Moved,
    buffer: &[u8],
) -> io::Result<()> {
    let n = moved.count as usize;
    counted(out, moved)?;
    let list = input::first(buffer, n * recording_sizes::record_on(channel));
    channel_records(out, channel, true, list)
}

// A take.
pub fn take(out: &impl Print, channel: u32) -> io::Result<()> {
    number(out, b"take, channel ", channel)
}

// The answer to a take of a channel, and the record to send.
pub fn taken(
    out: &impl Print,
    channel: u32,
    answer: Result<(), Refusal>,
    buffer: &[u8],
) -> io::Result<()> {
    coded(out, answer)?;
    if answer.is_ok() {
        frame_record(
            out,
            channel,
            input::first(buffer, recording_sizes::record_on(channel)),
        )?;
    }
    Ok(())
}
