// A TP2.0 connection some microseconds later, on the bytes of its part of a region.
#![tactic(auto)]

ghost use Rattle.std.specs.Prelude.{◌≡◌, get_or};
ghost use Rattle.link.specs.Connection.{passing};
ghost use Rattle.link_layout.specs.Connection.{connection_part};
ghost use Rattle.link_layout.specs.Turned.{LinkPart};

use link_places::{
    ASKED_AT, CARE_AT, EXIT_AT, HEAR_AT, OUT_AT, SN_IN, STANDING_AT, T1_IN, TALK_AT, TRIALS_AT,
    WIRE_AT,
};

// States.
const ABSENT: u8 = 0;

const STANDING: u8 = 3;

const LEAVING: u8 = 4;

// A standing connection: what is left of T_Wait and of T3, the message, the test. It leaves where one of the last two was tried often enough.
fn stood(part: &mut [u8], us: u32)
    requires { LinkPart part.old × (get_or part.old 0 0 ≡ 3) }
    ensures { part.new ≡ connection_part.put (passing us (connection_part.get part.old)) }
{
    let t1 = part[ASKED_AT + T1_IN];
    link_timers::left_later(&mut part[TALK_AT..TALK_AT + SN_IN], us);
    link_timers::space_later(&mut part[WIRE_AT..CARE_AT], us);
    if !link_timers::out_later(&mut part[OUT_AT..HEAR_AT], t1, us) {
        link_ending::end(part);
        return;
    }
    if !link_timers::care_later(&mut part[CARE_AT..TALK_AT], us) {
        link_ending::end(part);
    }
}

// The connection some microseconds later. Where there is none there is nothing to do; an opening telegram tried often enough ends it.
pub fn later(part: &mut [u8], us: u32)
    requires { LinkPart part.old }
    ensures { part.new ≡ connection_part.put (passing us (connection_part.get part.old)) }
{
    let state = part[0];
    if state == ABSENT {
        return;
    }
    if state == STANDING {
        stood(part, us);
        return;
    }
    if state == LEAVING {
        link_timers::space_later(&mut part[EXIT_AT..STANDING_AT], us);
        return;
    }
    if !link_timers::trials_later(&mut part[TRIALS_AT..EXIT_AT], us) {
        link_ending::end(part);
    }
}
