// A TP2.0 connection when the frame in flight that belongs to it was sent, on the bytes of its part of a region.
#![tactic(auto)]

ghost use Rattle.std.specs.Prelude.{◌≡◌, get_or};
ghost use Rattle.link.specs.Connection.{was_sent};
ghost use Rattle.link_layout.specs.Connection.{connection_part};
ghost use Rattle.link_layout.specs.Turned.{LinkPart};

use link_places::{
    ASKED_AT, CARE_AT, EXIT_AT, HEAR_AT, OUT_AT, PACE_IN, STANDING_AT, T1_IN, TALK_AT, TRIALS_AT,
    WIRE_AT,
};

// States; a disconnect telegram in flight; on the line nothing, data, a test.
const ABSENT: u8 = 0;

const STANDING: u8 = 3;

const LEAVING: u8 = 4;

const GOES: u8 = 2;

const SPACED: u8 = 0;

const DATA: u8 = 1;

const TEST: u8 = 2;

// A connection that leaves: with its disconnect telegram sent there is none.
fn left(part: &mut [u8])
    requires { LinkPart part.old × (get_or part.old 0 0 ≡ 4) }
    ensures { part.new ≡ connection_part.put (was_sent (connection_part.get part.old)) }
{
    if part[EXIT_AT] == GOES {
        octets::zero(part);
        return;
    }
    link_starts::behind_sent(&mut part[EXIT_AT..STANDING_AT]);
}

// A standing connection: T3 runs, and what the telegram starts.
fn landed(part: &mut [u8])
    requires { LinkPart part.old × (get_or part.old 0 0 ≡ 3) }
    ensures { part.new ≡ connection_part.put (was_sent (connection_part.get part.old)) }
{
    let which = part[WIRE_AT];
    if which == SPACED {
        return;
    }
    let t1 = part[ASKED_AT + T1_IN];
    let size = integers::wide(part[STANDING_AT]);
    let us = link_measures::micros(part[STANDING_AT + PACE_IN]);
    link_starts::put_which(&mut part[WIRE_AT..CARE_AT], SPACED, us);
    if which == DATA {
        link_starts::data_sent(&mut part[OUT_AT..HEAR_AT], t1, size);
        return;
    }
    if which == TEST {
        link_starts::test_sent(&mut part[CARE_AT..TALK_AT]);
    }
}

// The frame in flight was sent.
pub fn sent(part: &mut [u8])
    requires { LinkPart part.old }
    ensures { part.new ≡ connection_part.put (was_sent (connection_part.get part.old)) }
{
    let state = part[0];
    if state == ABSENT {
        return;
    }
    if state == STANDING {
        landed(part);
        return;
    }
    if state == LEAVING {
        left(part);
        return;
    }
    link_starts::trials_sent(&mut part[TRIALS_AT..EXIT_AT]);
}
