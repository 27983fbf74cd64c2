// What a TP2.0 connection gives to be sent, on the bytes of its part of a region: an opening telegram, a telegram of the standing connection, a
// disconnect. Its bytes are then those with that telegram in flight.
#![tactic(auto)]

ghost use Rattle.std.specs.Prelude.{◌≡◌, get_or};
ghost use Rattle.link_layout.specs.Turned.{LinkPart};
ghost use Rattle.link_telegrams.specs.Given.{Gave};

use link_places::{ASKED_AT, EXIT_AT, TRIAL_IN, TRIALS_AT, TX_ID_AT};
use link_telegrams::Given;
use telegram_types::OnChannel;

// States; an opening telegram that waits, and one in flight; a disconnect telegram that waits, and one in flight.
const ABSENT: u8 = 0;

const OPENING: u8 = 1;

const CONNECTING: u8 = 2;

const STANDING: u8 = 3;

const WAITS: u8 = 0;

const FLIES: u8 = 1;

const DUE: u8 = 0;

const GOES: u8 = 2;

// The channel set-up, where it waits.
fn set_up(part: &mut [u8]) -> Given
    requires { LinkPart part.old × (get_or part.old 0 0 ≡ 1) }
    ensures { Gave part.old result part.new }
{
    if part[TRIALS_AT + TRIAL_IN] != WAITS {
        return link_telegrams::nothing();
    }
    let r = link_telegrams::opening(&part[ASKED_AT..TX_ID_AT]);
    part[TRIALS_AT + TRIAL_IN] = FLIES;
    r
}

// The connection set-up, where it waits.
fn connect(part: &mut [u8]) -> Given
    requires { LinkPart part.old × (get_or part.old 0 0 ≡ 2) }
    ensures { Gave part.old result part.new }
{
    if part[TRIALS_AT + TRIAL_IN] != WAITS {
        return link_telegrams::nothing();
    }
    let id = integers::word_at(part, TX_ID_AT);
    let r = link_telegrams::connection(&part[ASKED_AT..TX_ID_AT], id, false);
    part[TRIALS_AT + TRIAL_IN] = FLIES;
    r
}

// The disconnect, where it waits and nothing is left of T3.
fn leave(part: &mut [u8]) -> Given
    requires { LinkPart part.old × (get_or part.old 0 0 ≡ 4) }
    ensures { Gave part.old result part.new }
{
    if part[EXIT_AT] != DUE {
        return link_telegrams::nothing();
    }
    if integers::word_at(part, EXIT_AT + 1) > 0 {
        return link_telegrams::nothing();
    }
    let id = integers::word_at(part, TX_ID_AT);
    let r = link_telegrams::on_channel(id, OnChannel::Disconnect, &part[0..0]);
    part[EXIT_AT] = GOES;
    r
}

// What a connection gives.
pub fn offer(part: &mut [u8]) -> Given
    requires { LinkPart part.old }
    ensures { Gave part.old result part.new }
{
    let state = part[0];
    if state == ABSENT {
        return link_telegrams::nothing();
    }
    if state == STANDING {
        return link_offers::on_link(part);
    }
    if state == OPENING {
        return set_up(part);
    }
    if state == CONNECTING {
        return connect(part);
    }
    leave(part)
}
