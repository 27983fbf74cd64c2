// Prints the shift report of the recording on standard input: a line each for channels 1 to 4, the channel and its eleven numbers in decimal. A line
// on standard error says where and why the recording is bad, or that the program could not read or write.
#![tactic(auto)]

ghost use Rattle.std.specs.Prelude.{◌≡◌, ◌<◌, length};
ghost use Rattle.machine.specs.Limits.{lines};
ghost use Rattle.shift_places.specs.Places.{of_report};

use shift_places::CHANNEL;
use std::io;

// Writes a channel's line: its number and its eleven numbers, one space between; or says why it could not.
fn write_line(out: &impl Print, numbers: &[u32], line: usize) -> io::Result<()>
    requires { (length numbers.now ≡ of_report) × (line < lines) }
{
    let channel = line + 1;
    print!(out; "{channel}")?;
    for which in 0..CHANNEL {
        let n = numbers[line * CHANNEL + which];
        print!(out; " {n}")?;
    }
    out.write_all(b"\n")
}

// Writes the line of each channel, or says why it could not.
fn write_lines(out: &impl Print, numbers: &[u32]) -> io::Result<()>
    requires { length numbers.now ≡ of_report }
{
    for line in 0..places::LINES {
        write_line(out, numbers, line)?;
    }
    Ok(())
}

// The 44 numbers of a recording.
fn numbers_of(recording: &[u8]) -> [u32; shift_places::REPORT] {
    let mut mem = [0u8; box_places::BOX];
    let mut numbers = [0u32; shift_places::REPORT];
    let _ = shift_report::report(&mut mem, recording, &mut numbers);
    numbers
}

// Reports a recording and writes the report, or says why it could not.
fn tell(out: &impl Print, recording: &[u8]) -> io::Result<()> {
    let numbers = numbers_of(recording);
    write_lines(out, &numbers)
}

// Reads the recording, reports it, and says what is wrong with it.
fn main(rt: HostRuntime) -> io::Result<()> {
    let mut buffer = [0u8; input::READ];
    let mut size = 0;
    if let Err(e) = input::read_all(&mut rt.stdin(), &mut buffer, &mut size) {
        return eprintln!(rt; "report: standard input: {e}");
    }
    let recording = input::first(&buffer, size);
    if let Err(e) = tell(&rt, recording) {
        return eprintln!(rt; "report: standard output: {e}");
    }
    fault_words::complain(&rt.stderr(), b"report: bad recording: ", recording)
}
