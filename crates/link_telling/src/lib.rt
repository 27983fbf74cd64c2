// A telegram reaches a TP2.0 connection that stands, on its bytes.
#![tactic(auto)]

ghost use Rattle.std.specs.Prelude.{◌≡◌, ◌≤◌, T, length, get_or};
ghost use Rattle.std.proofs.Math.Option.{some};
ghost use Rattle.telegram.specs.Telegram.{data_telegram, acknowledge as acknowledge_of};
ghost use Rattle.telegram_types.specs.Face.{channel_said};
ghost use Rattle.link.specs.Connection.{longest};
ghost use Rattle.link_layout.specs.Sizes.{care_size};
ghost use Rattle.link_layout.specs.Connection.{care, connection_part};
ghost use Rattle.link_layout.specs.Turned.{LinkPart};
ghost use Rattle.link_telling.specs.Telling.{tells, heeds, care_tested, care_answered};

use link_places::{CARE_AT, CARE_SIZE, HEAR_AT, LEFT_IN, LINK, TALK_AT, TESTS_IN, UNANSWERED_IN};
use telegram_types::{OnChannel, Telegram};

// T_CTa in microseconds.
const TEST: u32 = 1000000;

// A test came: its acknowledge waits, no test of ours does, and T_CTa runs anew.
fn tested(s: &mut [u8])
    requires { (length s.old ≡ care_size) × T (care.valid s.old) }
    ensures { s.new ≡ care.put (care_tested (care.get s.old)) }
{
    s[0] = 1;
    s[TESTS_IN] = 0;
    integers::put_word(&mut s[LEFT_IN..CARE_SIZE], TEST);
}

// The acknowledge of our test came: none is unanswered.
fn answered(s: &mut [u8])
    requires { (length s.old ≡ care_size) × T (care.valid s.old) }
    ensures { s.new ≡ care.put (care_answered (care.get s.old)) }
{
    s[UNANSWERED_IN] = 0;
}

// Data: where there are too many, the connection comes to its end.
fn data(part: &mut [u8], asks: bool, last: bool, sn: u8, bytes: &[u8])
    requires { LinkPart part.old × (get_or part.old 0 0 ≡ 3) × (length bytes.now ≤ longest) }
    ensures { part.new ≡ connection_part.put (heeds (some (data_telegram asks last sn bytes.now)) (connection_part.get part.old)) }
{
    let goes_on = link_data::data(&mut part[HEAR_AT..LINK], asks, last, sn, bytes);
    if goes_on {
        return;
    }
    link_ending::end(part);
}

// An acknowledge: where telegrams are asked for once too often, the connection comes to its end.
fn acknowledge(part: &mut [u8], ready: bool, sn: u8)
    requires { LinkPart part.old × (get_or part.old 0 0 ≡ 3) }
    ensures { part.new ≡ connection_part.put (heeds (some (acknowledge_of ready sn)) (connection_part.get part.old)) }
{
    let goes_on = link_acknowledging::acknowledge(&mut part[TALK_AT..HEAR_AT], ready, sn);
    if goes_on {
        return;
    }
    link_ending::end(part);
}

// A telegram on the channel, by its kind.
fn tell(part: &mut [u8], t: OnChannel, bytes: &[u8])
    requires { LinkPart part.old × (get_or part.old 0 0 ≡ 3) × (length bytes.now ≤ longest) }
    ensures { part.new ≡ connection_part.put (heeds (some (channel_said t bytes.now)) (connection_part.get part.old)) }
{
    match t {
        OnChannel::Data { asks, last, sn } => data(part, asks, last, sn, bytes),
        OnChannel::Acknowledge { ready, sn } => acknowledge(part, ready, sn),
        OnChannel::Connection {
            ack,
            block_size: _,
            t1: _,
            t2: _,
            t3: _,
            t4: _,
        } => {
            if ack {
                answered(&mut part[CARE_AT..TALK_AT]);
            }
        }
        OnChannel::Test => tested(&mut part[CARE_AT..TALK_AT]),
        OnChannel::Break => link_acknowledging::break_off(&mut part[TALK_AT..HEAR_AT]),
        OnChannel::Disconnect => octets::zero(part),
    }
}

// A frame of the channel reaches a connection that stands; what can't be taken apart is ignored.
pub fn told(part: &mut [u8], bytes: &[u8])
    requires { LinkPart part.old × (get_or part.old 0 0 ≡ 3) }
    ensures { part.new ≡ connection_part.put (tells bytes.now (connection_part.get part.old)) }
{
    let Ok(answer) = channel_reader::channel(bytes) else {
        return;
    };
    match answer.telegram {
        Telegram::Opening(_, _) => {}
        Telegram::Channel(t) => tell(part, t, &answer.payload[0..answer.len]),
    }
}
