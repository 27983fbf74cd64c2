// The parts of a TP2.0 connection some microseconds later, each on its bytes: a timer is over where the time reaches what is left of it.
#![tactic(auto)]

ghost use Rattle.std.specs.Prelude.{◌≡◌, ◌-◌, ◌≤◌, T, length, get_or};
ghost use Rattle.codec.specs.Word.{word, word_at};
ghost use Rattle.link.specs.Connection.{out_later, care_later, wire_later, exit_later};
ghost use Rattle.link_layout.specs.Sizes.{word_size, which_size, trials_size, care_size, block_in, out_size};
ghost use Rattle.link_layout.specs.Connection.{trials, leaves, wire, out, care};
ghost use Rattle.link_layout.specs.Turned.{is_there, put_or};
ghost use Rattle.link_timers.specs.Timed.{trials_later};

use link_places::{
    BLOCK_IN, CARE_SIZE, LEFT_IN, REPEATS_IN, TESTS_IN, TRIAL_IN, TRIALS_SIZE, UNANSWERED_IN, WHICH,
};

// The most repeats of an opening telegram, and of one that asks; the most tests unanswered; the T1 that never ends.
const MNTC: u8 = 10;

const MNT: u8 = 2;

const MNCT: u8 = 5;

const ENDLESS: u8 = 0xFF;

// An opening telegram that waits, and one whose T_E runs; a message whose telegrams are sent, and one whose T1 runs.
const WAITS: u8 = 0;

const RUNS: u8 = 2;

const SENDS: u8 = 1;

const ASKS: u8 = 2;

// What is left of a time.
pub fn left_later(s: &mut [u8], us: u32)
    requires { length s.old ≡ word_size }
    ensures { s.new ≡ word (word_at 0 s.old - us) }
{
    let left = integers::word_at(s, 0);
    integers::put_word(s, integers::less(left, us));
}

// What is left of T3, on the line of a standing connection and before a disconnect telegram.
pub fn space_later(s: &mut [u8], us: u32)
    requires { length s.old ≡ which_size }
    ensures { (T (wire.valid s.old) → s.new ≡ wire.put (wire_later us (wire.get s.old))) × (T (leaves.valid s.old) → s.new ≡ leaves.put (exit_later us (leaves.get s.old))) }
{
    if s[0] == 0 {
        left_later(&mut s[1..WHICH], us);
    }
}

// An opening telegram: false where it was repeated often enough.
pub fn trials_later(s: &mut [u8], us: u32) -> bool
    requires { (length s.old ≡ trials_size) × T (trials.valid s.old) }
    ensures { (result ≡ is_there (trials_later us (trials.get s.old))) × (s.new ≡ put_or trials (trials_later us (trials.get s.old)) s.old) }
{
    if s[TRIAL_IN] < RUNS {
        return true;
    }
    let left = integers::word_at(s, TRIAL_IN + 1);
    if us < left {
        integers::put_word(&mut s[TRIAL_IN + 1..TRIALS_SIZE], left - us);
        return true;
    }
    let repeats = s[0];
    if repeats < MNTC {
        link_starts::put_which(&mut s[TRIAL_IN..TRIALS_SIZE], WAITS, 0);
        s[0] = repeats + 1;
        return true;
    }
    false
}

// A message: false where the telegram that asks was repeated often enough.
pub fn out_later(s: &mut [u8], t1: u8, us: u32) -> bool
    requires { (length s.old ≡ out_size) × T (out.valid s.old) × (get_or s.old 0 0 ≡ 2 → 1 ≤ get_or s.old block_in 0) }
    ensures { (result ≡ is_there (out_later t1 us (out.get s.old))) × (s.new ≡ put_or out (out_later t1 us (out.get s.old)) s.old) }
{
    if s[0] < ASKS {
        return true;
    }
    let left = integers::word_at(s, 1);
    if (t1 == ENDLESS) | (us < left) {
        integers::put_word(&mut s[1..WHICH], integers::less(left, us));
        return true;
    }
    let taken = s[BLOCK_IN];
    let repeats = s[BLOCK_IN + REPEATS_IN];
    if repeats < MNT {
        link_starts::put_which(&mut s[0..WHICH], SENDS, 0);
        s[BLOCK_IN] = taken - 1;
        s[BLOCK_IN + REPEATS_IN] = repeats + 1;
        return true;
    }
    false
}

// The connection test: false where tests were unanswered often enough.
pub fn care_later(s: &mut [u8], us: u32) -> bool
    requires { (length s.old ≡ care_size) × T (care.valid s.old) }
    ensures { (result ≡ is_there (care_later us (care.get s.old))) × (s.new ≡ put_or care (care_later us (care.get s.old)) s.old) }
{
    let left = integers::word_at(s, LEFT_IN);
    if (left == 0) | (us < left) {
        integers::put_word(&mut s[LEFT_IN..CARE_SIZE], integers::less(left, us));
        return true;
    }
    let unanswered = s[UNANSWERED_IN];
    if MNCT < unanswered {
        return false;
    }
    integers::put_word(&mut s[LEFT_IN..CARE_SIZE], 0);
    s[TESTS_IN] = 1;
    if unanswered == 0 {
        return true;
    }
    s[UNANSWERED_IN] = unanswered + 1;
    true
}
