// What a message that was sent tells: TxDone, and with loopback on the message after it.
#![tactic(auto)]

ghost use Rattle.std.specs.Prelude.{◌≡◌, ℕ, ◌+◌, ◌≤◌, T, length};
ghost use Rattle.codec.specs.Plain.{all};
ghost use Rattle.iso.specs.Limits.{most_payload};
ghost use Rattle.iso.specs.Iso.{tx_done, arrive_iso};
ghost use Rattle.iso_layout.specs.Sizes.{heard_size};
ghost use Rattle.iso_layout.specs.Region.{heard_cell, heard_part};
ghost use Rattle.iso_done.specs.Done.{message_of, Tellable};

// RxStatus of a TxDone and of a message that comes back, above the message's TxFlags.
const TX_DONE: u32 = 9;

const LOOPBACK: u32 = 1;

// A message with these TxFlags, this identifier and this payload was sent: what it tells arrives in a receiving part.
pub fn tell(q: &mut [u8], clock: u32, loopback: bool, tx: u32, id: u32, payload: &[u8])
    requires { (length q.old ≡ heard_size + 1) × (length payload.now ≤ most_payload) × (tx ≤ 0x100) × Tellable q.old clock loopback (message_of tx id payload.now) }
    ensures { (flags : ℕ) → T ((heard_part flags).valid q.old) → T (all (heard_cell flags).ok (tx_done clock loopback (message_of tx id payload.now))) → q.new ≡ (heard_part flags).put (arrive_iso ((heard_part flags).get q.old) (tx_done clock loopback (message_of tx id payload.now))) }
{
    iso_queue::arrive(q, clock, tx + TX_DONE, id, &payload[0..0]);
    if loopback {
        iso_queue::arrive(q, clock, tx + LOOPBACK, id, payload);
    }
}
