// What is wrong with a recording, in words. Bytes are counted from 0, events from 1.
#![tactic(auto)]

use fault::Spot;
use std::io;

// Words, a number and words again.
fn about(out: &impl Print, before: &[u8], n: u64, after: &[u8]) -> io::Result<()> {
    out.write_all(before)?;
    print!(out; "{n}")?;
    out.write_all(after)
}

// Why a number cannot be read.
fn number(out: &impl Print, reason: u32, at: usize) -> io::Result<()> {
    about(out, b": the number at byte ", at as u64, b"")?;
    if reason == fault::TOO_LARGE {
        out.write_all(b" is over 4294967295\n")
    } else {
        out.write_all(b" is not in its shortest form\n")
    }
}

// Why an event is bad, behind the words that name it, and the line's end.
pub fn reason(out: &impl Print, recording: &[u8], spot: Spot) -> io::Result<()> {
    let at = spot.at;
    let why = spot.reason;
    match why {
        fault::CUT_SHORT => about(
            out,
            b": cut short, the part from byte ",
            at as u64,
            b" on is not all there\n",
        ),
        fault::OVER_MOST => about(out, b": the n at byte ", at as u64, b" is over 64\n"),
        fault::UNKNOWN => about(
            out,
            b": there is no event of number ",
            fault::number_at(recording, at) as u64,
            b"\n",
        ),
        fault::MISPLACED => about(
            out,
            b": event 0 at byte ",
            at as u64,
            b" is not at the very start, where an edition stands\n",
        ),
        fault::OTHER_EDITION => about(
            out,
            b": there is no edition ",
            fault::number_at(recording, at) as u64,
            b", only 2\n",
        ),
        _ => number(out, why, at),
    }
}

// Says where and why a recording is bad, if it is, on a line of its own behind a label.
pub fn complain(out: &impl Print, label: &[u8], recording: &[u8]) -> io::Result<()> {
    let f = fault::find(recording);
    if f.reason == fault::GOOD {
        return Ok(());
    }
    out.write_all(label)?;
    if f.reason == fault::TOO_LONG {
        return out.write_all(b"more than 32768 bytes\n");
    }
    about(out, b"event ", f.event as u64, b" at byte ")?;
    let from = f.from;
    print!(out; "{from}")?;
    let spot = Spot {
        reason: f.reason,
        at: f.at,
    };
    reason(out, recording, spot)
}
