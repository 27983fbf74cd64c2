// Runs the reader and the writer on worked telegrams, and prints a line for each. What the file `stdout` holds was worked out by hand
// from documents 001 (tables 3 to 5, sections 5.1.3 and 5.2.2) and 01 and request P6, before the program was first run with them.
#![tactic(auto)]

use std::io;
use telegram_words::number;

// A time byte and its time.
fn time(out: &impl Print, b: u8) -> io::Result<()> {
    print!(out; "time {b:02x} ->")?;
    number(out, times::time(b))?;
    out.write_all(b"\n")
}

// Runs every case.
fn main(rt: HostRuntime) -> io::Result<()> {
    worked_reads::reads(&rt)?;
    worked_writes::writes_on_channel(&rt)?;
    worked_writes::writes_of_openings(&rt)?;
    time(&rt, 0x00)?;
    time(&rt, 0x32)?;
    time(&rt, 0x41)?;
    time(&rt, 0x8A)?;
    time(&rt, 0xBF)?;
    time(&rt, 0xC1)?;
    time(&rt, 0xFF)
}
