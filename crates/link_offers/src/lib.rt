// What a standing TP2.0 connection gives to be sent where nothing of it is in flight: a connection acknowledge, a test, an acknowledge or data. Its
// bytes are then those with that telegram in flight.
#![tactic(auto)]

ghost use Rattle.std.specs.Prelude.{◌≡◌, ◌+◌, get_or};
ghost use Rattle.link_layout.specs.Sizes.{care_at, tests_in, hear_at, ack_in};
ghost use Rattle.link_layout.specs.Turned.{LinkPart};
ghost use Rattle.link_telegrams.specs.Given.{Gave};
ghost use Rattle.link_offers.specs.Free.{Free, Untested};

use link_places::{
    ACK_IN, ASKED_AT, BLOCK_IN, CARE_AT, HEAR_AT, OUT_AT, SN_IN, STANDING_AT, TALK_AT, TESTS_IN,
    TX_ID_AT, WIRE_AT,
};
use link_telegrams::Given;
use telegram_types::OnChannel;

// On the line: data, a test, another telegram; an acknowledge that is ready; a message whose telegrams are sent.
const DATA: u8 = 1;

const TEST: u8 = 2;

const OTHER: u8 = 3;

const READY: u8 = 2;

const SENDS: u8 = 1;

// A connection acknowledge, where one waits.
fn answer(part: &mut [u8]) -> Given
    requires { Free part.old × (get_or part.old care_at 0 ≡ 1) }
    ensures { Gave part.old result part.new }
{
    let id = integers::word_at(part, TX_ID_AT);
    let r = link_telegrams::connection(&part[ASKED_AT..TX_ID_AT], id, true);
    part[WIRE_AT] = OTHER;
    part[CARE_AT] = 0;
    r
}

// A test, where one waits and no connection acknowledge does.
fn test(part: &mut [u8]) -> Given
    requires { Free part.old × (get_or part.old care_at 0 ≡ 1 → ⊥) × (get_or part.old (care_at + tests_in) 0 ≡ 1) }
    ensures { Gave part.old result part.new }
{
    let id = integers::word_at(part, TX_ID_AT);
    let r = link_telegrams::on_channel(id, OnChannel::Test, &part[0..0]);
    part[WIRE_AT] = TEST;
    part[CARE_AT + TESTS_IN] = 0;
    r
}

// An acknowledge, where one waits: it carries the SN expected now.
fn acknowledge(part: &mut [u8]) -> Given
    requires { Untested part.old × (get_or part.old (hear_at + ack_in) 0 ≡ 0 → ⊥) }
    ensures { Gave part.old result part.new }
{
    let id = integers::word_at(part, TX_ID_AT);
    let t = OnChannel::Acknowledge {
        ready: part[HEAR_AT + ACK_IN] == READY,
        sn: part[HEAR_AT],
    };
    let r = link_telegrams::on_channel(id, t, &part[0..0]);
    part[WIRE_AT] = OTHER;
    part[HEAR_AT + ACK_IN] = 0;
    r
}

// Data, where telegrams of a message are to be sent and T_Wait is over.
fn data(part: &mut [u8]) -> Given
    requires { Untested part.old × (get_or part.old (hear_at + ack_in) 0 ≡ 0) }
    ensures { Gave part.old result part.new }
{
    if part[OUT_AT] != SENDS {
        return link_telegrams::nothing();
    }
    if integers::word_at(part, TALK_AT) > 0 {
        return link_telegrams::nothing();
    }
    let id = integers::word_at(part, TX_ID_AT);
    let size = integers::wide(part[STANDING_AT]);
    let sn = part[TALK_AT + SN_IN];
    let taken = part[OUT_AT + BLOCK_IN];
    let r = link_telegrams::data(&part[OUT_AT..HEAR_AT], id, size, sn);
    part[WIRE_AT] = DATA;
    part[OUT_AT + BLOCK_IN] = taken + 1;
    r
}

// What a standing connection gives.
pub fn on_link(part: &mut [u8]) -> Given
    requires { LinkPart part.old × (get_or part.old 0 0 ≡ 3) }
    ensures { Gave part.old result part.new }
{
    if part[WIRE_AT] != 0 {
        return link_telegrams::nothing();
    }
    if integers::word_at(part, WIRE_AT + 1) > 0 {
        return link_telegrams::nothing();
    }
    if part[CARE_AT] == 1 {
        return answer(part);
    }
    if part[CARE_AT + TESTS_IN] == 1 {
        return test(part);
    }
    if part[HEAR_AT + ACK_IN] != 0 {
        return acknowledge(part);
    }
    data(part)
}
