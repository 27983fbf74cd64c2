// An acknowledge and a break, on the bytes of what a standing connection sends.
#![tactic(auto)]

ghost use Rattle.std.specs.Prelude.{◌≡◌, ◌≤◌, T, length, get_or};
ghost use Rattle.link.specs.Connection.{broken};
ghost use Rattle.link_layout.specs.Sizes.{out_in, out_size, talk_size};
ghost use Rattle.link_layout.specs.Connection.{out, talk};
ghost use Rattle.link_layout.specs.Turned.{is_there, put_or};
ghost use Rattle.link_acknowledging.specs.Acknowledging.{restarted, next_of, cut_of, waiting, accepted, repeated, acknowledged_in};

use integers::{put_word, wide};
use link_places::{AGAIN_IN, BLOCK_IN, OUT_IN, OUT_SIZE, REPEATS_IN, REST_IN, SN_IN, TALK_SIZE};
use places::NUMBER;

// Whether a message's telegrams are sent, or T1 runs.
const SENDS: u8 = 1;

const ASKS: u8 = 2;

// The most bytes of a data telegram.
const IN_TELEGRAM: u32 = 7;

// T_Wait in microseconds; how often telegrams of a block may be asked for again.
const WAIT: u32 = 100000;

const MOST_AGAIN: u8 = 5;

// Where in a message the bytes left of it begin; where in what is sent the block does.
const REST: usize = BLOCK_IN + REST_IN;

const BLOCK: usize = OUT_IN + BLOCK_IN;

// The telegrams of the block are sent from one of them on.
fn restart(s: &mut [u8], taken: u8, again: u8)
    requires { (length s.old ≡ out_size) × T (out.valid s.old) }
    ensures { s.new ≡ out.put (restarted taken again (out.get s.old)) }
{
    s[0] = SENDS;
    s[BLOCK_IN] = taken;
    s[BLOCK_IN + REPEATS_IN] = 0;
    s[BLOCK_IN + AGAIN_IN] = again;
    put_word(&mut s[1..BLOCK_IN], 0);
}

// The block was acknowledged: the next one, or the message's end.
fn next_block(s: &mut [u8])
    requires { (length s.old ≡ out_size) × T (out.valid s.old) × (get_or s.old 0 0 ≡ 2) }
    ensures { s.new ≡ out.put (next_of (out.get s.old)) }
{
    let done = IN_TELEGRAM * wide(s[BLOCK_IN]);
    if link_store::count(&s[REST..OUT_SIZE]) <= done {
        octets::zero(s);
        return;
    }
    restart(s, 0, 0);
    link_store::drop_bytes(&mut s[REST..OUT_SIZE], done as usize);
}

// One empty telegram takes the place of the rest, where one is not yet taken; whether it does.
fn cut(s: &mut [u8]) -> bool
    requires { (length s.old ≡ out_size) × T (out.valid s.old) }
    ensures { (result ≡ is_there (cut_of (out.get s.old))) × (s.new ≡ put_or out (cut_of (out.get s.old)) s.old) }
{
    if s[0] == 0 {
        return false;
    }
    let held = link_store::count(&s[REST..OUT_SIZE]);
    if link_measures::telegrams(held) <= wide(s[BLOCK_IN]) {
        return false;
    }
    restart(s, 0, 0);
    link_store::clear(&mut s[REST..OUT_SIZE]);
    true
}

// Not ready: T_Wait runs.
fn wait(s: &mut [u8], ready: bool)
    requires { (length s.old ≡ talk_size) × T (talk.valid s.old) }
    ensures { s.new ≡ talk.put (waiting ready (talk.get s.old)) }
{
    if ready {
        return;
    }
    put_word(&mut s[0..NUMBER], WAIT);
}

// All telegrams of the block are acknowledged.
fn accept(s: &mut [u8], ready: bool, sn: u8)
    requires { (length s.old ≡ talk_size) × T (talk.valid s.old) × (get_or s.old out_in 0 ≡ 2) }
    ensures { s.new ≡ talk.put (accepted ready sn (talk.get s.old)) }
{
    wait(s, ready);
    next_block(&mut s[OUT_IN..TALK_SIZE]);
    s[SN_IN] = sn;
}

// Those from one of them on are asked for again.
fn repeat(s: &mut [u8], ready: bool, at: u8, again: u8)
    requires { (length s.old ≡ talk_size) × T (talk.valid s.old) }
    ensures { s.new ≡ talk.put (repeated ready at again (talk.get s.old)) }
{
    wait(s, ready);
    restart(&mut s[OUT_IN..TALK_SIZE], at, again);
}

// An acknowledge with this SN, ready or not; false where it ends the connection, and then nothing changes here.
pub fn acknowledge(s: &mut [u8], ready: bool, sn: u8) -> bool
    requires { (length s.old ≡ talk_size) × T (talk.valid s.old) × ((talk.get s.old).sn ≤ 15) }
    ensures { (result ≡ is_there (acknowledged_in ready sn (talk.get s.old) (talk.get s.old).out)) × (s.new ≡ put_or talk (acknowledged_in ready sn (talk.get s.old) (talk.get s.old).out) s.old) }
{
    if s[OUT_IN] != ASKS {
        return true;
    }
    let taken = s[BLOCK];
    let at = ((wide(sn) + 16 - wide(s[SN_IN])) % 16) as u8;
    if at == taken {
        accept(s, ready, sn);
        return true;
    }
    if at > taken {
        return true;
    }
    let again = s[BLOCK + AGAIN_IN];
    if again >= MOST_AGAIN {
        return false;
    }
    repeat(s, ready, at, again + 1);
    true
}

// A break, where a telegram of the message is not yet taken: the empty one has the SN that comes next.
pub fn break_off(s: &mut [u8])
    requires { (length s.old ≡ talk_size) × T (talk.valid s.old) }
    ensures { s.new ≡ talk.put (broken (talk.get s.old) (talk.get s.old).out) }
{
    let sn = ((wide(s[SN_IN]) + wide(s[BLOCK])) % 16) as u8;
    if cut(&mut s[OUT_IN..TALK_SIZE]) {
        s[SN_IN] = sn;
    }
}
