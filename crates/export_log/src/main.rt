// Exports the bus frames of the recording on standard input as the lines of a candump log, from the start that the argument says in seconds. A line on
// standard error says where and why the recording is bad, or that the program could not read or write.
#![tactic(auto)]

use std::io;

// Room for a piece: many lines, so that a full recording has few pieces.
const PIECE: usize = 1024 * exporting::LINE_ROOM;

// The place and the time at which a piece left off.
#[derive(Drop)]
struct Until {
    at: usize,
    time: u64,
}

// Writes the lines from a place and a time on that have room in one piece, or says why it could not. A piece that is refused leaves both as they are.
fn write_piece(to: &impl Print, time: u64, recording: &[u8], at: usize) -> io::Result<Until> {
    let mut out = [0u8; PIECE];
    let Ok(piece) = exporting::export(time, recording, at, &mut out) else {
        return Ok(Until { at, time });
    };
    to.write_all(input::first(&out, piece.length))?;
    Ok(Until {
        at: piece.at,
        time: piece.time,
    })
}

// Writes the lines of a recording, piece by piece, or says why it could not. A piece takes one byte of it or more, so there are no more than bytes.
fn write_lines(to: &impl Print, start: u64, recording: &[u8]) -> io::Result<()> {
    let mut at = 0;
    let mut time = start;
    for _ in 0..recording.len() {
        if at >= recording.len() {
            return Ok(());
        }
        let until = write_piece(to, time, recording, at)?;
        at = until.at;
        time = until.time;
    }
    Ok(())
}

// Exports a recording; says what is wrong with it, or that it could not write.
fn tell(out: &impl Print, said: &impl Print, start: u64, recording: &[u8]) -> io::Result<()> {
    if let Err(e) = write_lines(out, start, recording) {
        return println!(said; "export: standard output: {e}");
    }
    fault_words::complain(said, b"export: bad recording: ", recording)
}

// Reads the start and the recording, and exports it.
fn main(rt: HostRuntime) -> io::Result<()> {
    let Some(start) = log_words::start(&rt, &rt.stderr(), b"export: ")? else {
        return Ok(());
    };
    let mut buffer = [0u8; input::READ];
    let mut size = 0;
    if let Err(e) = input::read_all(&mut rt.stdin(), &mut buffer, &mut size) {
        return eprintln!(rt; "export: standard input: {e}");
    }
    tell(&rt, &rt.stderr(), start, input::first(&buffer, size))
}
