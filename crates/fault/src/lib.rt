// Where and why a recording is bad: its first bad event, and the first part of that event which cannot be read.
#![tactic(auto)]

ghost use Rattle.std.specs.Prelude.{◌≡◌, ◌≤◌, drop};
ghost use Rattle.iso.specs.Limits.{iso_record_size};
ghost use Rattle.fault.specs.Fault.{told, why_bad, number_after, bytes_after, pieces_after, flow_after, arguments_after, edition_fault, event_fault, fault_in};
ghost use Rattle.number.specs.Number.{front};
ghost use Rattle.number.specs.Place.{number_at};

// Nothing is wrong.
pub const GOOD: u32 = 0;

// The recording ends before the part does.
pub const CUT_SHORT: u32 = 1;

// A number is not in its shortest form.
pub const NOT_SHORTEST: u32 = 2;

// A number is over 4,294,967,295.
pub const TOO_LARGE: u32 = 3;

// An n is over 64.
pub const OVER_MOST: u32 = 4;

// No event has this number.
pub const UNKNOWN: u32 = 5;

// The recording has more than 32,768 bytes.
pub const TOO_LONG: u32 = 6;

// Event 0 stands elsewhere than at the very start.
pub const MISPLACED: u32 = 7;

// Event 0 says an edition that there is not.
pub const OTHER_EDITION: u32 = 8;

// How far an event was looked at: where it is good so far, the place after that; else why it is not, and where the part begins that is to blame.
#[derive(Clone, Copy)]
pub struct Spot {
    pub reason: u32,
    pub at: usize,
}

// Why a recording is bad, the number of its bad event from 1 on, where that event begins, and where the part begins that is to blame.
#[derive(Drop)]
pub struct Fault {
    pub reason: u32,
    pub event: usize,
    pub from: usize,
    pub at: usize,
}

// Why there is no number at a place: its bytes go on to the first that has no top bit.
fn why(recording: &[u8], at: usize) -> u32
    ensures { result ≡ why_bad (front (drop at recording.now)) }
{
    for place in at..recording.len() {
        let byte = recording[place];
        if byte < 128 {
            if (byte == 0) & (at < place) {
                return NOT_SHORTEST;
            }
            return TOO_LARGE;
        }
    }
    CUT_SHORT
}

// The number at a place, 0 where there is none.
pub fn number_at(recording: &[u8], at: usize) -> u32
    ensures { result ≡ told (number_at recording.now at) }
{
    let Some(found) = reader::read_number(recording, at) else {
        return 0;
    };
    found.value
}

// Looks at a number.
fn number(recording: &[u8], before: Spot) -> Spot
    ensures { result ≡ number_after recording.now before }
{
    if before.reason != GOOD {
        return before;
    }
    let at = before.at;
    let Some(found) = reader::read_number(recording, at) else {
        let reason = why(recording, at);
        return Spot { reason, at };
    };
    Spot {
        reason: GOOD,
        at: found.next,
    }
}

// Looks at so many raw bytes.
fn bytes(recording: &[u8], before: Spot, size: usize) -> Spot
    ensures { result ≡ bytes_after size recording.now before }
{
    if before.reason != GOOD {
        return before;
    }
    let at = before.at;
    if at > recording.len() {
        return Spot {
            reason: CUT_SHORT,
            at,
        };
    }
    if size > recording.len() - at {
        return Spot {
            reason: CUT_SHORT,
            at,
        };
    }
    Spot {
        reason: GOOD,
        at: at + size,
    }
}

// Looks at an n of at most 64, and at n pieces of raw bytes.
fn pieces(recording: &[u8], before: Spot, unit: usize) -> Spot
    requires { unit ≤ iso_record_size }
    ensures { result ≡ pieces_after unit recording.now before }
{
    if before.reason != GOOD {
        return before;
    }
    let at = before.at;
    let Some(n) = reader::read_number(recording, at) else {
        let reason = why(recording, at);
        return Spot { reason, at };
    };
    if n.value > recording_sizes::MOST {
        return Spot {
            reason: OVER_MOST,
            at,
        };
    }
    let from = Spot {
        reason: GOOD,
        at: n.next,
    };
    bytes(recording, from, unit * (n.value as usize))
}

// Looks at the record of the flow, which a start of a filter has on channels 5 to 8.
fn flow(recording: &[u8], before: Spot, channel: u32) -> Spot
    ensures { result ≡ flow_after channel recording.now before }
{
    if !recording_sizes::on_iso(channel) {
        return before;
    }
    bytes(recording, before, recording_sizes::record_on(channel))
}

// Looks at the arguments of the event of a number, 1 to 16. Most begin with one number or two, and those with records with the channel.
fn arguments(recording: &[u8], from: Spot, kind: u32) -> Spot
    ensures { result ≡ arguments_after kind recording.now from }
{
    let channel = number_at(recording, from.at);
    let size = recording_sizes::record_on(channel);
    let one = number(recording, from);
    let two = number(recording, one);
    match kind {
        1 => number(recording, number(recording, two)),
        2 => one,
        3 => from,
        4 => one,
        5 => pieces(recording, number(recording, two), 1),
        6 => flow(
            recording,
            bytes(recording, bytes(recording, two, size), size),
            channel,
        ),
        7 => two,
        8 => number(recording, bytes(recording, one, size)),
        9 => two,
        10 => pieces(recording, one, size),
        11 => pieces(recording, one, 0),
        12 => one,
        13 => one,
        14 => two,
        15 => two,
        16 => number(recording, two),
        _ => from,
    }
}

// Why an event 0 is bad: it says an edition at the very start alone, and there its number is none or another than the mark's.
fn edition_fault(recording: &[u8], at: usize, next: usize) -> Spot
    ensures { result ≡ edition_fault recording.now at next }
{
    if at != 0 {
        return Spot {
            reason: MISPLACED,
            at,
        };
    }
    if reader::read_number(recording, next).is_none() {
        let reason = why(recording, next);
        return Spot { reason, at: next };
    }
    Spot {
        reason: OTHER_EDITION,
        at: next,
    }
}

// Looks at the event at a place: where it is good the place after it, else why it is bad, and where the part begins that is to blame.
pub fn event(recording: &[u8], at: usize) -> Spot
    ensures { result ≡ event_fault recording.now at }
{
    let Some(kind) = reader::read_number(recording, at) else {
        let reason = why(recording, at);
        return Spot { reason, at };
    };
    if kind.value == 0 {
        return edition_fault(recording, at, kind.next);
    }
    if kind.value > 16 {
        return Spot {
            reason: UNKNOWN,
            at,
        };
    }
    let from = Spot {
        reason: GOOD,
        at: kind.next,
    };
    arguments(recording, from, kind.value)
}

// Finds the first bad event of a recording behind its mark, if it has one.
pub fn find(recording: &[u8]) -> Fault
    ensures { result ≡ fault_in recording.now }
{
    if recording.len() > recording_sizes::LONGEST {
        return Fault {
            reason: TOO_LONG,
            event: 0,
            from: 0,
            at: recording_sizes::LONGEST,
        };
    }
    // the next event begins where this one ends, which no `for` counts
    let mut at = edition::start_of(recording);
    let mut n = 0;
    while at < recording.len() {
        n += 1;
        let Some((_, next)) = event_reader::read_event(recording, at) else {
            let spot = event(recording, at);
            return Fault {
                reason: spot.reason,
                event: n,
                from: at,
                at: spot.at,
            };
        };
        at = next;
    }
    Fault {
        reason: GOOD,
        event: 0,
        from: 0,
        at: 0,
    }
}
