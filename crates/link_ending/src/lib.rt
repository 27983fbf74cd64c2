// A TP2.0 connection comes to its end, on its bytes: what was to be sent is dropped, and where a channel stands a disconnect telegram waits.
#![tactic(auto)]

ghost use Rattle.std.specs.Prelude.{◌≡◌, ◌≤◌, length};
ghost use Rattle.codec.specs.Word.{word_at};
ghost use Rattle.link.specs.Connection.{leaving, ended};
ghost use Rattle.link_layout.specs.Sizes.{which_size, tx_id_at, link_size};
ghost use Rattle.link_layout.specs.Connection.{exit_of, leaves, connection_part};
ghost use Rattle.link_layout.specs.Turned.{LinkPart};

use link_places::{EXIT_AT, PACE_IN, STANDING_AT, TRIALS_AT, TX_ID_AT, WHICH, WIRE_AT};

// How a disconnect telegram waits, over its five bytes.
fn put_exit(s: &mut [u8], which: u8, n: u32)
    requires { (length s.old ≡ which_size) × (which ≤ 1) }
    ensures { s.new ≡ leaves.put (exit_of which n) }
{
    integers::put_word(&mut s[1..WHICH], n);
    s[0] = which;
}

// The bytes of a connection that leaves: its TX-ID stays, and a disconnect telegram waits in the way that is said.
fn leave(part: &mut [u8], which: u8, n: u32)
    requires { (length part.old ≡ link_size) × (which ≤ 1) }
    ensures { part.new ≡ connection_part.put (leaving (word_at tx_id_at part.old) (exit_of which n)) }
{
    let tx = integers::word_at(part, TX_ID_AT);
    octets::zero(part);
    integers::put_word(&mut part[TX_ID_AT..TRIALS_AT], tx);
    put_exit(&mut part[EXIT_AT..STANDING_AT], which, n);
    part[0] = 4;
}

// The end of a connection, whatever its state.
pub fn end(part: &mut [u8])
    requires { LinkPart part.old }
    ensures { part.new ≡ connection_part.put (ended (connection_part.get part.old)) }
{
    if part[0] == 1 {
        octets::zero(part);
        return;
    }
    if part[0] == 2 {
        leave(part, 0, 0);
        return;
    }
    if part[0] == 3 {
        if part[WIRE_AT] == 0 {
            let left = integers::word_at(part, WIRE_AT + 1);
            leave(part, 0, left);
            return;
        }
        let pace = integers::wide(part[STANDING_AT + PACE_IN]);
        leave(part, 1, pace);
    }
}
