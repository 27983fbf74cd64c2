// Data, on the bytes of what a standing connection receives.
#![tactic(auto)]

ghost use Rattle.std.specs.Prelude.{◌≡◌, ◌+◌, ◌≤◌, T, length};
ghost use Rattle.std.proofs.Math.Option.{some};
ghost use Rattle.codec.specs.Code.{mark_of};
ghost use Rattle.link.specs.Connection.{longest, heard_data, answering};
ghost use Rattle.link_layout.specs.Sizes.{hear_size};
ghost use Rattle.link_layout.specs.Connection.{ack_parts, hear};
ghost use Rattle.link_layout.specs.Turned.{is_there, put_or};
ghost use Rattle.link_data.specs.Hearing.{hearing};

use link_places::{ACK_IN, BYTES_IN, COMPLETE_IN, HEAR_SIZE, MOST_BYTES};

// The byte of a mark.
fn mark(on: bool) -> u8
    ensures { result ≡ mark_of on }
{
    if on { 1 } else { 0 }
}

// The byte of an acknowledge that waits, ready or not.
fn waiting(ready: bool) -> u8
    ensures { result ≡ ack_parts (some ready) }
{
    if ready { 2 } else { 1 }
}

// An acknowledge waits.
fn answer(s: &mut [u8], ready: bool)
    requires { (length s.old ≡ hear_size) × T (hear.valid s.old) }
    ensures { s.new ≡ hear.put (answering (hear.get s.old) ready) }
{
    s[ACK_IN] = waiting(ready);
}

// How many bytes of the message there are.
fn held(s: &[u8]) -> usize
    requires { (length s.now ≡ hear_size) × T (hear.valid s.now) }
    ensures { (result ≡ length (hear.get s.now).bytes) × (result ≤ longest) }
{
    link_store::count(&s[BYTES_IN..HEAR_SIZE]) as usize
}

// More bytes of the message; a last telegram completes it, if it has bytes.
fn take(s: &mut [u8], asking: bool, last: bool, bytes: &[u8])
    requires { (length s.old ≡ hear_size) × T (hear.valid s.old) × (length (hear.get s.old).bytes + length bytes.now ≤ longest) }
    ensures { s.new ≡ hear.put (heard_data (hear.get s.old) asking last bytes.now) }
{
    let some = held(s) + bytes.len() > 0;
    let next = (s[0] % 16 + 1) % 16;
    link_store::append(&mut s[BYTES_IN..HEAR_SIZE], bytes);
    s[COMPLETE_IN] = mark(last & some);
    s[0] = next;
    if asking {
        s[ACK_IN] = waiting(true);
    }
}

// Data: not taken while a complete message waits; another SN than that expected is answered by it; false where they end the connection, and then
// nothing changes here.
pub fn data(s: &mut [u8], asking: bool, last: bool, sn: u8, bytes: &[u8]) -> bool
    requires { (length s.old ≡ hear_size) × T (hear.valid s.old) × (length bytes.now ≤ longest) }
    ensures { (result ≡ is_there (hearing asking last sn bytes.now (hear.get s.old))) × (s.new ≡ put_or hear (hearing asking last sn bytes.now (hear.get s.old)) s.old) }
{
    if s[COMPLETE_IN] == 1 {
        if asking {
            answer(s, false);
        }
        return true;
    }
    if sn != s[0] {
        answer(s, true);
        return true;
    }
    if held(s) + bytes.len() > MOST_BYTES {
        return false;
    }
    take(s, asking, last, bytes);
    true
}
