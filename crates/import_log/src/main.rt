// Imports the candump log on standard input, from the start that the argument says in seconds, and writes the recording to standard output. A line on
// standard error says which line stopped the import and why, or that the program could not read or write.
#![tactic(auto)]

use importing::Imported;
use std::io;

// Imports a log and writes the recording; says what stopped the import, or that it could not write.
fn tell(out: &impl Print, said: &impl Print, start: u64, log: &[u8]) -> io::Result<()> {
    let mut recording = [0u8; recording_sizes::LONGEST];
    let part = log_input::part_read(log);
    let nothing = Imported {
        length: 0,
        stopped: None,
    };
    let done = importing::import(start, input::first(log, part.end), &mut recording).unwrap_or(
        nothing,
    );
    if let Err(e) = out.write_all(input::first(&recording, done.length)) {
        return println!(said; "import: standard output: {e}");
    }
    if let Some(at) = done.stopped {
        return log_words::stopped(said, b"import: ", at.line, Some(at.why));
    }
    if let Some(line) = part.line {
        return log_words::unread(said, b"import: ", line);
    }
    Ok(())
}

// Reads the start and the log, and imports it.
fn main(rt: HostRuntime) -> io::Result<()> {
    let Some(start) = log_words::start(&rt, &rt.stderr(), b"import: ")? else {
        return Ok(());
    };
    let mut buffer = [0u8; log_input::READ];
    let mut size = 0;
    if let Err(e) = input::read_all(&mut rt.stdin(), &mut buffer, &mut size) {
        return eprintln!(rt; "import: standard input: {e}");
    }
    tell(&rt, &rt.stderr(), start, input::first(&buffer, size))
}
