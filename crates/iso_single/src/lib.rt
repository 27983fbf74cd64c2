// The message of a single frame that was sent, out of the flight.
#![tactic(auto)]

ghost use Rattle.std.specs.Prelude.{◌≡◌, [], ◌∷◌, ◌≤◌, length};
ghost use Rattle.iso.specs.Limits.{most_payload};
ghost use Rattle.iso.specs.Iso.{un_single};
ghost use Rattle.talk_message.specs.Sent.{messages};
ghost use Rattle.iso_single.specs.Single.{SingleIn};

use talk_message::Sent;

// Where in a flight, behind its mark and what it belongs to, the frame's numbers and its bytes begin: the identifier, how many bytes follow, they.
const FRAME: usize = 2;

const TX: usize = FRAME + places::TX_FLAGS_IN;

const SIZE: usize = FRAME + places::SIZE_IN;

const ID: usize = FRAME + places::DATA_IN;

const FRONT: usize = places::NUMBER + 1;

const BYTES: usize = ID + FRONT;

// The message whose single frame is in flight, its payload to the front of a buffer.
pub fn single_in(f: &[u8], buffer: &mut [u8]) -> Sent
    requires { SingleIn f.now × (length buffer.old ≡ most_payload) }
    ensures { ((s : SingleIn f.now) → messages result buffer.new ≡ un_single s.flight.frame ∷ []) × (result.size ≤ most_payload) }
{
    let whole = true;
    let size = integers::word_at(f, SIZE) as usize - FRONT;
    octets::copy(&mut buffer[0..size], &f[BYTES..BYTES + size]);
    let tx = integers::word_at(f, TX);
    let id = integers::id_at(f, ID);
    Sent {
        whole,
        tx,
        id,
        size,
    }
}
