// Is this a standing connection, and do its parts fit each other? On its 1,062 bytes.
#![tactic(auto)]

ghost use Rattle.std.specs.Prelude.{◌≡◌, T, length};
ghost use Rattle.link.specs.Connection.{Asked};
ghost use Rattle.link_layout.specs.Sizes.{out_size, standing_size};
ghost use Rattle.link_layout.specs.Connection.{t1_fits, out_in, link_fits, link};
ghost use Rattle.link_layout.specs.Connection.{out as out_code};

use integers::{wide, word_at};
use link_checks::{care, hear, out, wire};
use link_measures::{block_of, micros};
use link_places::{
    AGAIN_IN, BLOCK_IN, BYTES_IN, CARE_IN, COMPLETE_IN, HEAR_IN, LEFT_IN, OUT_IN, OUT_SIZE,
    PACE_IN, REPEATS_IN, REST_IN, SN_IN, STANDING_SIZE, TALK_IN, TESTS_IN, UNANSWERED_IN, WIRE_IN,
};
use link_store::count;

// T1's byte where it never ends; T_Wait and T_CTa in microseconds; the largest SN; the repeats on T1, in a block, of a test and one more.
const NEVER: u8 = 0xFF;

const T_WAIT: u32 = 100_000;

const T_TEST: u32 = 1_000_000;

const MOST_SN: u8 = 15;

const MNT: u8 = 2;

const MNTB: u8 = 5;

const MNCT: u8 = 5;
// In what is sent, the block's repeats, how often it was asked for again, and the bytes of the message.
const REPEATS: usize = BLOCK_IN + REPEATS_IN;

const AGAIN: usize = BLOCK_IN + AGAIN_IN;

const MESSAGE: usize = BLOCK_IN + REST_IN;
// In a standing connection: the test's fields, the SN and the message sent, the complete mark and the bytes received.
const TESTS: usize = CARE_IN + TESTS_IN;

const UNANSWERED: usize = CARE_IN + UNANSWERED_IN;

const LEFT: usize = CARE_IN + LEFT_IN;

const SN: usize = TALK_IN + SN_IN;

const OUT: usize = TALK_IN + OUT_IN;

const COMPLETE: usize = HEAR_IN + COMPLETE_IN;

const RECEIVED: usize = HEAR_IN + BYTES_IN;

// What is left of T1: nothing where it never ends, else at most T1, and something unless T1 is nothing.
fn t1_fits(t1: u8, us: u32) -> bool
    ensures { result ≡ t1_fits t1 us }
{
    if t1 == NEVER {
        return us == 0;
    }
    let most = micros(t1);
    (us <= most) & ((0 < us) | (most == 0))
}

// Does a message under way fit T1, the block size and what is in flight?
fn out_in(s: &[u8], t1: u8, size: u8, flying: bool) -> bool
    requires { (length s.now ≡ out_size) × T (out_code.valid s.now) }
    ensures { result ≡ out_in t1 size flying (out_code.get s.now) }
{
    let k = s[0];
    if k == 0 {
        return !flying;
    }
    let taken = wide(s[BLOCK_IN]);
    let few = (s[REPEATS] <= MNT) & (s[AGAIN] <= MNTB);
    let most = block_of(wide(size), count(&s[MESSAGE..OUT_SIZE]));
    if k != 1 {
        return few & !flying & (taken == most) & t1_fits(t1, word_at(s, 1));
    }
    if flying {
        return few & (taken <= most);
    }
    few & (taken < most)
}

// Each part by itself.
pub fn parts(s: &[u8]) -> bool
    requires { length s.now ≡ standing_size }
    ensures { result ≡ link.valid s.now }
{
    wire(&s[WIRE_IN..CARE_IN])
        & (care(&s[CARE_IN..TALK_IN]) & (out(&s[OUT..HEAR_IN]) & hear(&s[HEAR_IN..STANDING_SIZE])))
}

// What the parts say of each other, and of the block size and T1 that were asked for.
pub fn fits(s: &[u8], most: u8, t1: u8) -> bool
    requires { (length s.now ≡ standing_size) × T (link.valid s.now) }
    ensures { (a : Asked) → a.block_size ≡ most → a.t1 ≡ t1 → result ≡ link_fits a (link.get s.now) }
{
    let tag = s[WIRE_IN];
    let left = word_at(s, LEFT);
    ((1 <= s[0]) & (s[0] <= most))
        & ((tag != 0) | (word_at(s, WIRE_IN + 1) <= micros(s[PACE_IN])))
        & (word_at(s, TALK_IN) <= T_WAIT)
        & (s[SN] <= MOST_SN)
        & out_in(&s[OUT..HEAR_IN], t1, s[0], tag == 1)
        & (s[HEAR_IN] <= MOST_SN)
        & (!(1 == s[COMPLETE]) | (0 < count(&s[RECEIVED..STANDING_SIZE])))
        & (s[UNANSWERED] < MNCT + 2)
        & (left <= T_TEST)
        & ((0 < left) | ((1 == s[TESTS]) | (tag == 2)))
}
