// The data of the frames that ISO 15765-2 sends, each into a lent buffer of eight bytes: what kind it is, then payload. Each says how many they are.
#![tactic(auto)]

ghost use Rattle.std.specs.Prelude.{◌≡◌, ℕ, ◌+◌, ◌-◌, ◌≤◌, min, List, length, drop};
ghost use Rattle.machine.specs.Message.{Rec};
ghost use Rattle.iso.specs.Limits.{id_size, most_payload, in_single, in_first, in_next};
ghost use Rattle.iso.specs.Iso.{Talk, Stage, number_after, single_frame, first_frame, next_frame, flow_frame};
ghost use Rattle.framing.specs.Data.{frame_room, Carries, taken_of};

// The bytes of a frame's data.
pub const FRAME: usize = 8;

// Kinds of a frame, the high half of its first byte.
const FIRST: u8 = 0x10;

const NEXT: u8 = 0x20;

const FLOW: u8 = 0x30;

// Payload bytes in a consecutive frame; the bytes of a flow frame.
const IN_NEXT: usize = 7;

const IN_FLOW: usize = 3;

// How many of so many bytes behind the first n go into a consecutive frame.
fn part(n: usize, size: usize) -> usize
    requires { n ≤ size }
    ensures { result ≡ min in_next (size - n) }
{
    if IN_NEXT <= size - n {
        IN_NEXT
    } else {
        size - n
    }
}

// The first byte of the consecutive frame after so many bytes.
fn numbered(n: usize) -> u8
    requires { n ≤ most_payload }
    ensures { result ≡ 0x20 + number_after n }
{
    NEXT + ((n + 1) / IN_NEXT % 16) as u8
}

// A flow frame: its status, block size 0 and STmin 0.
pub fn flow(d: &mut [u8], status: u8) -> usize
    requires { (length d.old ≡ frame_room) × (status ≤ 2) }
    ensures { (c : Talk) → Carries result d.new (flow_frame c status) }
{
    d[0] = FLOW + status;
    d[1] = 0;
    d[2] = 0;
    IN_FLOW
}

// A consecutive frame of a payload of which n bytes were taken.
pub fn next(d: &mut [u8], n: usize, payload: &[u8]) -> usize
    requires { (length d.old ≡ frame_room) × (n ≤ length payload.now) × (length payload.now ≤ most_payload) }
    ensures { (c : Talk) (s : Stage) → Carries result d.new (next_frame c (taken_of payload.now n s)) }
{
    let m = part(n, payload.len());
    let end = 1 + m;
    let stop = n + m;
    d[0] = numbered(n);
    octets::copy(&mut d[1..end], &payload[n..stop]);
    end
}

// The first frame of a payload.
pub fn first(d: &mut [u8], payload: &[u8]) -> usize
    requires { (length d.old ≡ frame_room) × (in_first ≤ length payload.now) × (length payload.now ≤ most_payload) }
    ensures { (c : Talk) → Carries result d.new (first_frame c payload.now) }
{
    let size = payload.len();
    d[0] = FIRST + (size / 256) as u8;
    d[1] = (size % 256) as u8;
    octets::copy(&mut d[2..FRAME], &payload[0..FRAME - 2]);
    FRAME
}

// The single frame of a message: how many bytes follow its identifier, and they.
pub fn single(d: &mut [u8], payload: &[u8]) -> usize
    requires { (length d.old ≡ frame_room) × (length payload.now ≤ in_single) }
    ensures { (m : Rec) → id_size ≤ length m.bytes → drop id_size m.bytes ≡ payload.now → Carries result d.new (single_frame m) }
{
    let size = payload.len();
    let end = 1 + size;
    d[0] = size as u8;
    octets::copy(&mut d[1..end], payload);
    end
}
