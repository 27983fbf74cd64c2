// What the programs of logs are told and say: the start that they are given, and what stopped an import, in words.
#![tactic(auto)]

use candump::Stop;
use start_time::StartError;
use std::env::FillError;
use std::io;
use std::rt::Env;

// Room for any argument that is a start.
const ROOM: usize = 4096;

// Was the program given an argument of this place? Place 0 is its name.
fn has(rt: &impl Env, place: usize) -> bool {
    let mut first = [0u8; 1];
    !matches!(&rt.arg(place, &mut first), Err(FillError::NotPresent))
}

// The start that the program's only argument says; where it says none, why.
fn given(rt: &impl Env) -> Result<u64, StartError> {
    let mut text = [0u8; ROOM];
    if has(rt, 2) {
        return Err(StartError::Unreadable);
    }
    let Ok(n) = rt.arg(1, &mut text) else {
        return Err(StartError::Unreadable);
    };
    start_time::read_start(&text[..n])
}

// The start that the program was given; where there is none, a line behind a label says why.
pub fn start(rt: &impl Env, out: &impl Print, label: &[u8]) -> io::Result<Option<u64>> {
    match given(rt) {
        Ok(start) => Ok(Some(start)),
        Err(why) => {
            out.write_all(label)?;
            println!(out; "bad start: {why}")?;
            Ok(None)
        }
    }
}

// Says which line stopped an import and why, if one did, on a line of its own behind a label.
pub fn stopped(out: &impl Print, label: &[u8], line: usize, why: Option<Stop>) -> io::Result<()> {
    let Some(why) = why else {
        return Ok(());
    };
    out.write_all(label)?;
    println!(out; "line {line}: {why}")
}

// Says from which line on a log was not read, if that is so, on a line of its own behind a label. No line has the number 0.
pub fn unread(out: &impl Print, label: &[u8], line: usize) -> io::Result<()> {
    if line == 0 {
        return Ok(());
    }
    out.write_all(label)?;
    println!(out; "line {line}: not read, the log has more than 262144 bytes")
}
