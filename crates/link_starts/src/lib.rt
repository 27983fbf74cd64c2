// What a sent starts in the bytes of a part of a TP2.0 connection: T_E of an opening telegram, T3 before a disconnect telegram, T_CTa of a test, T1 of a
// block's last telegram.
#![tactic(auto)]

ghost use Rattle.std.specs.Prelude.{◌≡◌, ◌∷◌, T, length};
ghost use Rattle.codec.specs.Word.{word};
ghost use Rattle.link.specs.Connection.{data_sent};
ghost use Rattle.link_layout.specs.Sizes.{which_size, trials_size, care_size, out_size};
ghost use Rattle.link_layout.specs.Connection.{trials, leaves, care, out};
ghost use Rattle.link_starts.specs.Started.{trials_sent, behind_sent, test_sent, t1_left};

use link_places::{
    BLOCK_IN, CARE_SIZE, LEFT_IN, REST_IN, TRIAL_IN, TRIALS_SIZE, UNANSWERED_IN, WHICH,
};

// T_E and T_CTa in microseconds; the T1 that never ends.
const T_E: u32 = 100_000;

const T_TEST: u32 = 1_000_000;

const ENDLESS: u8 = 0xFF;

// An opening telegram in flight, and one whose T_E runs; a disconnect telegram that waits, and one behind another telegram; a message whose telegrams are
// sent, and one whose T1 runs.
const FLIES: u8 = 1;

const RUNS: u8 = 2;

const DUE: u8 = 0;

const BEHIND: u8 = 1;

const SENDS: u8 = 1;

const ASKS: u8 = 2;

// A byte that says which, and a number behind it.
pub fn put_which(s: &mut [u8], which: u8, n: u32)
    requires { length s.old ≡ which_size }
    ensures { s.new ≡ which ∷ word n }
{
    integers::put_word(&mut s[1..WHICH], n);
    s[0] = which;
}

// An opening telegram was sent: T_E runs.
pub fn trials_sent(s: &mut [u8])
    requires { (length s.old ≡ trials_size) × T (trials.valid s.old) }
    ensures { s.new ≡ trials.put (trials_sent (trials.get s.old)) }
{
    if s[TRIAL_IN] == FLIES {
        put_which(&mut s[TRIAL_IN..TRIALS_SIZE], RUNS, T_E);
    }
}

// A telegram was sent behind which a disconnect telegram waits: T3 runs.
pub fn behind_sent(s: &mut [u8])
    requires { (length s.old ≡ which_size) × T (leaves.valid s.old) }
    ensures { s.new ≡ leaves.put (behind_sent (leaves.get s.old)) }
{
    if s[0] == BEHIND {
        let us = link_measures::micros(s[1]);
        put_which(s, DUE, us);
    }
}

// A test was sent: it is unanswered, and T_CTa runs.
pub fn test_sent(s: &mut [u8])
    requires { (length s.old ≡ care_size) × T (care.valid s.old) }
    ensures { s.new ≡ care.put (test_sent (care.get s.old)) }
{
    integers::put_word(&mut s[LEFT_IN..CARE_SIZE], T_TEST);
    if s[UNANSWERED_IN] == 0 {
        s[UNANSWERED_IN] = 1;
    }
}

// What is left of T1 at first.
fn t1_left(t1: u8) -> u32
    ensures { result ≡ t1_left t1 }
{
    if t1 == ENDLESS {
        return 0;
    }
    link_measures::micros(t1)
}

// A data telegram was sent: T1 runs where it is the last of its block.
pub fn data_sent(s: &mut [u8], t1: u8, size: u32)
    requires { (length s.old ≡ out_size) × T (out.valid s.old) }
    ensures { s.new ≡ out.put (data_sent t1 size (out.get s.old)) }
{
    if s[0] == SENDS {
        let n = integers::word_at(s, BLOCK_IN + REST_IN);
        if integers::wide(s[BLOCK_IN]) == link_measures::block_of(size, n) {
            put_which(&mut s[0..WHICH], ASKS, t1_left(t1));
        }
    }
}
