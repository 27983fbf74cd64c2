// Replays the recording on standard input, from power-on, and writes the answers to standard output. A line on standard error says where and
// why the recording is bad, or that the program could not read or write.
#![tactic(auto)]

ghost use Rattle.std.specs.Prelude.{◌≤◌, T, length};
ghost use Rattle.recording_sizes.specs.Sizes.{event_room};
ghost use Rattle.memory.specs.Memory.{valid};

use std::io;

// Room for a piece: twice what one event may write, so that a piece ends no earlier than half-way.
const PIECE: usize = 2 * recording_sizes::EVENT_ROOM;

// Replays a recording on a device memory, piece by piece, and writes the answers, or says why it could not.
fn play(to: &impl Print, mem: &mut [u8], recording: &[u8], out: &mut [u8]) -> io::Result<()>
    requires { T (valid mem.old) × (event_room ≤ length out.old) }
{
    let mut at = 0;
    // each piece says where the next begins, which no `for` counts
    while at < recording.len() {
        // the memory is valid and there is room: nothing is refused
        let Ok(played) = recording::play_on(mem, recording, at, out) else {
            unreachable!();
        };
        to.write_all(input::first(out, played.length))?;
        at = played.at;
    }
    Ok(())
}

// The same from power-on.
fn answer(to: &impl Print, recording: &[u8]) -> io::Result<()> {
    let mut mem = [0u8; box_places::BOX];
    let mut out = [0u8; PIECE];
    play(to, &mut mem, recording, &mut out)
}

// Reads the recording, answers it, and says what is wrong with it.
fn main(rt: HostRuntime) -> io::Result<()> {
    let mut buffer = [0u8; input::READ];
    let mut size = 0;
    if let Err(e) = input::read_all(&mut rt.stdin(), &mut buffer, &mut size) {
        return eprintln!(rt; "replay: standard input: {e}");
    }
    let recording = input::first(&buffer, size);
    if let Err(e) = answer(&rt, recording) {
        return eprintln!(rt; "replay: standard output: {e}");
    }
    fault_words::complain(&rt.stderr(), b"replay: bad recording: ", recording)
}
