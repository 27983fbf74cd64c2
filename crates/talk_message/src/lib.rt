// The message of a conversation's transmission that was sent as a whole, out of its place.
#![tactic(auto)]

ghost use Rattle.std.specs.Prelude.{◌≡◌, ℕ, ◌≤◌, T, length, drop};
ghost use Rattle.codec.specs.Code.{slot};
ghost use Rattle.iso.specs.Limits.{most_payload};
ghost use Rattle.iso.specs.Iso.{news_at, done_of};
ghost use Rattle.iso_layout.specs.Sizes.{talk_size};
ghost use Rattle.iso_layout.specs.Region.{payload508, talk_cell};
ghost use Rattle.talk_head.specs.Headed.{payload_on};
ghost use Rattle.talk_message.specs.Sent.{messages};

use iso_places::FLOW_IN;
use talk_head::BYTES;

// Is there a message; its TxFlags, its identifier, and how many bytes of a buffer are its payload.
#[derive(Drop)]
pub struct Sent {
    pub whole: bool,
    pub tx: u32,
    pub id: u32,
    pub size: usize,
}

// The message that is whole once the frame of the transfer in a conversation's place was sent, its payload to the front of a buffer.
pub fn message_in(t: &[u8], buffer: &mut [u8]) -> Sent
    requires { (length t.now ≡ talk_size) × T (payload508.valid (drop payload_on t.now)) × (length buffer.old ≡ most_payload) }
    ensures { ((flags : ℕ) → T ((slot (talk_cell flags)).valid t.now) → news_at (λ c. done_of c c.transfer) ((slot (talk_cell flags)).get t.now) ≡ messages result buffer.new) × (result.size ≤ most_payload) }
{
    let whole = talk_landing::whole_in(t);
    let size = talk_head::payload_size(t) as usize;
    octets::copy(&mut buffer[0..size], &t[BYTES..BYTES + size]);
    let tx = can::width_flag(t[1] == 1);
    let id = integers::word_at(t, FLOW_IN);
    Sent {
        whole,
        tx,
        id,
        size,
    }
}
