// Replays recordings whose answers were worked out by hand from the scope and the requests, before any program ran them, and prints for each whether the
// answers are as expected. The last line says how many are. The recording of a case is the file NAME.rec and its answers NAME.out, both in
// the folder that the program is run in. They lie in data/, where INDEX.md says what each case shows; `./replay --cases` runs it there.
#![tactic(auto)]

mod difference;
mod files;

ghost use Rattle.std.specs.Prelude.{◌≤◌, length};

use std::io;
use std::rt::Files;

// Room for the answers of any case: as many bytes, and room for one event more.
const ANSWERS: usize = 65536 + recording_sizes::EVENT_ROOM;

// Replays a recording on a device memory, each piece behind the one before it, and says how many bytes of answers there are. It stops where the
// room does.
fn replay(mem: &mut [u8], recording: &[u8], out: &mut [u8]) -> usize {
    let mut at = 0;
    let mut length = 0;
    // each piece says where the next begins, which no `for` counts
    while at < recording.len() {
        let Ok(played) = recording::play_on(mem, recording, at, &mut out[length..]) else {
            return length;
        };
        at = played.at;
        length += played.length;
    }
    length
}

// Replays a recording, prints whether its answers are as expected or what differs, and says whether they are.
fn replays_to(rt: &impl Print, recording: &[u8], expected: &[u8]) -> io::Result<bool> {
    let mut mem = [0u8; box_places::BOX];
    let mut out = [0u8; ANSWERS];
    let length = replay(&mut mem, recording, &mut out);
    let answers = input::first(&out, length);
    if answers == expected {
        rt.write_all(b": as expected\n")?;
        return Ok(true);
    }
    difference::print(rt, answers, expected)?;
    Ok(false)
}

// Runs the case of a name, prints what came of it, and says whether its answers are as expected.
fn agrees(rt: &(impl Files + Print), name: &[u8]) -> io::Result<bool> {
    rt.write_all(name)?;
    let mut recording = [0u8; input::READ];
    let mut size = 0;
    if !files::read(rt, name, b".rec", &mut recording, &mut size)? {
        return Ok(false);
    }
    let mut expected = [0u8; ANSWERS];
    let mut length = 0;
    if !files::read(rt, name, b".out", &mut expected, &mut length)? {
        return Ok(false);
    }
    replays_to(
        rt,
        input::first(&recording, size),
        input::first(&expected, length),
    )
}

// How many cases agree, and of how many. Where some case does not agree, that is said too.
fn count(rt: &(impl Print + Eprint), agree: usize, cases: usize) -> io::Result<()> {
    println!(rt; "{agree} of {cases} agree")?;
    if agree < cases {
        eprintln!(rt; "cases: not all agree")?;
    }
    Ok(())
}

// Where the name that starts at a place ends: at the next space, or at the end of all.
fn name_end(names: &[u8], at: usize) -> usize
    requires { at ≤ length names.now }
    ensures { (at ≤ result) × (result ≤ length names.now) }
{
    for end in at..names.len() {
        if names[end] == b' ' {
            return end;
        }
    }
    names.len()
}

// Runs the cases whose names stand in a row with a space between them, and counts them; or says why it could not write.
fn run(rt: &(impl Files + Print + Eprint), names: &[u8]) -> io::Result<()> {
    let mut cases = 0;
    let mut agree = 0;
    let mut at = 0;
    // each name says where the next begins, which no `for` counts
    while at < names.len() {
        let end = name_end(names, at);
        if agrees(rt, &names[at..end])? {
            agree += 1;
        }
        cases += 1;
        at = end + 1;
    }
    count(rt, agree, cases)
}

// Runs every case: those that the scope names, then those of recordings as such, connecting, starting filters, matching, the queue, writing,
// taking, ISO 15765 channels, the longest recordings, editions, and listeners.
fn main(rt: HostRuntime) -> io::Result<()> {
    let done = run(
        &rt,
        b"whole-example lost-full-read periodic-case \
        empty bad-cut-record bad-event-17 bad-long-form bad-number-2-32 n-64 n-65-read \
        connect-four p3-connect-order configuration channel-0x02 \
        filter-numbers filter-order filter-widths \
        filter-block filter-pattern-unmasked filter-short-frame p1-short-frame p1-block frame-order width-800 \
        read-codes lost-read-of-0 loopback four-channels \
        write-counts write-bad-without-room \
        periodic-from-start take-order clear-kinds \
        p3-connect p3-closed p3-filter-codes p3-filter-unique p3-write-codes \
        p3-single p3-receive p3-send p3-longest-sent p3-overflow \
        p3-replaced p3-late-reception p3-late-flow p3-block-size p3-separation \
        p3-two-conversations p3-half-duplex p3-queue p3-stop-filter \
        p3-clear p3-beside-raw p3-wide \
        size-32768 size-32769 \
        p12-edition-2 p12-no-edition p12-order p12-old-rate p12-alone p12-late p12-twice p12-twice-late \
        p12-bad-0 p12-bad-1 p12-bad-3 p12-bad-300 p12-cut-short p12-bad-long-form p12-long-event \
        p12-size-32768 p12-overlong \
        p14-listener p14-protocol-6",
    );
    if let Err(e) = done {
        return eprintln!(rt; "cases: standard output: {e}");
    }
    Ok(())
}
