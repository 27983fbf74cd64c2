// Replays recordings in pieces: each event is read, played on a lent device memory, and answered in bytes.
#![tactic(auto)]

ghost use Rattle.std.specs.Prelude.{◌≡◌, ◌+◌, ◌≤◌, T, length};
ghost use Rattle.recording_sizes.specs.Sizes.{event_room};
ghost use Rattle.memory.specs.Memory.{valid, load};
ghost use Rattle.edition.specs.Edition.{rates_of};
ghost use Rattle.recording.specs.Replay.{goes_on, event_at, leaves, told, written, pieced};

use codes::Refusal;
use playing::Turn;
use reader::Reader;

// Where in the recording a piece left off, and how many bytes of the output it wrote.
#[derive(Drop)]
pub struct Played {
    pub at: usize,
    pub length: usize,
}

// Plays a recording from a place on, event by event, to its end or a bad event, or until the output is past the last place at which there is room
// for one event: a reader moves through it. Gives where it left off in both.
fn play_events(mem: &mut [u8], recording: &[u8], at: usize, out: &mut [u8], last: usize) -> Turn
    requires { T (valid mem.old) × (at ≤ length recording.now) × (last + event_room ≡ length out.old) }
    ensures { leaves 0x00 result.next result.place mem.new out.new ≡ written (goes_on (rates_of recording.now) (length recording.now) (load mem.old) recording.now (event_at recording.now at) (length out.old)) out.old }
{
    let mut reader = Reader::new(recording, at);
    let mut place = 0;
    // each turn says where the next begins, which no `for` counts
    while !reader.at_end() & (place <= last) {
        let turn = playing::play_at(mem, recording, reader.at, out, place);
        place = turn.place;
        reader = reader.moved_to(turn.next);
    }
    Turn {
        next: reader.at,
        place,
    }
}

// Plays a piece of a recording from a place on, on a lent memory and into a lent buffer: 0x1A for what is no device memory, 0x04 where the buffer
// has no room for one event, and nothing changes; else 0x00, where it left off, and how many bytes it wrote. A bad event, or a recording of more than
// 32,768 bytes, ends at the recording's end. The device's memory and the place are all that the next piece needs.
pub fn play_on(
    mem: &mut [u8],
    recording: &[u8],
    at: usize,
    out: &mut [u8],
) -> Result<Played, Refusal>
    ensures { told at result mem.new out.new ≡ pieced mem.old recording.now at out.old }
{
    if !box_validity::valid(mem) {
        return Err(Refusal::InvalidDeviceId);
    }
    if out.len() < recording_sizes::EVENT_ROOM {
        return Err(Refusal::NullParameter);
    }
    if at >= recording.len() {
        return Ok(Played { at, length: 0 });
    }
    if recording.len() > recording_sizes::LONGEST {
        let length = answers::put_number(out, 0, recording_sizes::BAD_EVENT);
        return Ok(Played {
            at: recording.len(),
            length,
        });
    }
    let last = out.len() - recording_sizes::EVENT_ROOM;
    let end = play_events(mem, recording, at, out, last);
    Ok(Played {
        at: end.next,
        length: end.place,
    })
}
