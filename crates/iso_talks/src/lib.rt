// Are these the two conversations of an ISO 15765 channel, and do they and the flight fit each other?
#![tactic(auto)]

ghost use Rattle.std.specs.Prelude.{◌≡◌, [], ◌∷◌, not, ℕ, length, drop};
ghost use Rattle.std.proofs.Math.Option.{Option};
ghost use Rattle.codec.specs.Code.{slot};
ghost use Rattle.iso.specs.Iso.{Talk, airborne_at};
ghost use Rattle.iso_layout.specs.Sizes.{talk_size, talks_size, iso_flight_size};
ghost use Rattle.iso_layout.specs.Region.{talk_cell, talks_code, flight_code, transmits_in, knows_other, flight_fits, linked_talks};

use can::{id_limit, takes_width};
use integers::word_at;
use iso_places::{FLOW_IN, PATTERN_IN, TRANSFER_IN};
use iso_transfers::transfer;
use octets::all_zero;

// In a conversation's place, behind its taken mark; in the flight, behind its own.
const WIDTH: usize = 1;

const GO_ON: usize = TRANSFER_IN + iso_places::GO_ON_IN;

const OWNER: usize = 1;
// The least kind of a transmission.
const TRANSMITS: u8 = 3;

// A conversation, behind its taken mark: a width that the connection takes, both identifiers in its range, a transfer; with pattern equal to flow
// nothing segmented is received.
fn conversation(t: &[u8], flags: u32) -> bool
    requires { length t.now ≡ talk_size }
    ensures { result ≡ (talk_cell flags).valid (drop 1 t.now) }
{
    let wide = 1 == t[WIDTH];
    let pattern = word_at(t, PATTERN_IN);
    let flow = word_at(t, FLOW_IN);
    let kind = t[TRANSFER_IN];
    (t[WIDTH] <= 1)
        & transfer(t)
        & (takes_width(flags, wide)
            & (pattern <= id_limit(wide))
            & (flow <= id_limit(wide))
            & !((pattern == flow) & ((kind == 1) | (kind == 2))))
}

// A conversation's place: zeros, or a conversation.
fn place(t: &[u8], flags: u32) -> bool
    requires { length t.now ≡ talk_size }
    ensures { result ≡ (slot (talk_cell flags)).valid t.now }
{
    let k = t[0];
    if k == 0 {
        return all_zero(&t[1..iso_places::TALK_SIZE]);
    }
    if k == 1 {
        return conversation(t, flags);
    }
    false
}

// Both conversations.
pub fn talks(s: &[u8], flags: u32) -> bool
    requires { length s.now ≡ talks_size }
    ensures { result ≡ (talks_code flags).valid s.now }
{
    place(&s[0..iso_places::TALK_SIZE], flags)
        & place(&s[iso_places::TALK_SIZE..iso_places::TALKS_SIZE], flags)
}

// Do two conversations share no identifier of one width?
fn apart(a: &[u8], b: &[u8]) -> bool
    requires { (length a.now ≡ talk_size) × (length b.now ≡ talk_size) }
    ensures { (flags : ℕ) → result ≡ not (knows_other ((slot (talk_cell flags)).get a.now) ((slot (talk_cell flags)).get b.now ∷ [])) }
{
    if a[0] == 0 {
        return true;
    }
    if b[0] == 0 {
        return true;
    }
    let pattern = word_at(a, PATTERN_IN);
    let flow = word_at(a, FLOW_IN);
    let heard = word_at(b, PATTERN_IN);
    let sent = word_at(b, FLOW_IN);
    let known = (pattern == heard) | (pattern == sent);
    !(((1 == a[WIDTH]) == (1 == b[WIDTH])) & (known | ((flow == heard) | (flow == sent))))
}

// Does the conversation at a place transmit?
fn transmits(t: &[u8]) -> bool
    requires { length t.now ≡ talk_size }
    ensures { (flags : ℕ) → result ≡ transmits_in ((slot (talk_cell flags)).get t.now) }
{
    (t[0] != 0) & (TRANSMITS <= t[TRANSFER_IN])
}

// Has the transfer at a place a frame in flight?
fn airborne(t: &[u8]) -> bool
    requires { length t.now ≡ talk_size }
    ensures { (flags : ℕ) → result ≡ airborne_at ((slot (talk_cell flags)).get t.now) }
{
    let kind = t[TRANSFER_IN];
    (t[0] != 0) & (((kind == 2) & !(1 == t[GO_ON])) | ((kind == 3) | (kind == 5)))
}

// Does the flight belong to nothing, to a message, or to a transfer that has a frame in flight?
fn owned(f: &[u8], first: bool, second: bool) -> bool
    requires { length f.now ≡ iso_flight_size }
    ensures { (flags : ℕ) (a b : Option Talk) → first ≡ airborne_at a → second ≡ airborne_at b → result ≡ flight_fits (a ∷ b ∷ []) ((slot (flight_code flags)).get f.now) }
{
    let owner = f[OWNER];
    (f[0] == 0) | ((owner <= 1) | (((owner == 2) & first) | ((owner == 3) & second)))
}

// Two conversations and a flight: the identifiers apart, at most one transmits, and the frame of a transfer is in flight exactly if it says so.
pub fn linked(a: &[u8], b: &[u8], f: &[u8]) -> bool
    requires { (length a.now ≡ talk_size) × (length b.now ≡ talk_size) × (length f.now ≡ iso_flight_size) }
    ensures { (flags : ℕ) → result ≡ linked_talks ((slot (talk_cell flags)).get a.now ∷ (slot (talk_cell flags)).get b.now ∷ []) ((slot (flight_code flags)).get f.now) }
{
    let first = transmits(a);
    let second = transmits(b);
    let one = airborne(a);
    let two = airborne(b);
    let flown = f[0] != 0;
    let owner = f[OWNER];
    apart(a, b)
        & !(first & second)
        & owned(f, one, two)
        & (!(first & one) | (flown & (owner == 2)))
        & (!(second & two) | (flown & (owner == 3)))
}
