// Writing on an ISO 15765 channel: messages queued behind those that it holds to be sent.
#![tactic(auto)]

ghost use Rattle.std.specs.Prelude.{◌≡◌, List, [], ℕ, ◌≤◌, eqb, length, get_or};
ghost use Rattle.codes.specs.Code.{code_of};
ghost use Rattle.codec.specs.Word.{word_at};
ghost use Rattle.machine.specs.Filter.{any_slot};
ghost use Rattle.machine.specs.Message.{size_of};
ghost use Rattle.machine.specs.Channel.{write as write_of};
ghost use Rattle.layout.specs.Promise.{gives};
ghost use Rattle.iso.specs.Limits.{iso_record_size, least_message};
ghost use Rattle.iso.specs.Iso.{carries};
ghost use Rattle.iso_layout.specs.Sizes.{flow_in, talk_size};
ghost use Rattle.iso_layout.specs.Promise.{IsoOpened, iso_outcome};
ghost use Rattle.iso_writing.specs.Written.{iso, talks_by, unmatched as unmatched_in};

use codes::{Moved, Refusal};
use iso_places::{FLIGHT, FLOW_IN, MESSAGES, RECORD, TALK_SIZE, TALKS_AT};
use writing::Queueing;

// The most written messages; the longest that is a single frame: an identifier and 7 bytes; where the second conversation begins.
const MOST: u8 = iso_places::MOST_MESSAGES as u8;

const LONGEST_SINGLE: u32 = places::NUMBER as u32 + 7;

const SECOND: usize = TALKS_AT + TALK_SIZE;

// What a message is matched against: whether a place holds a conversation, and its width and flow identifier.
#[derive(Clone, Copy)]
pub struct Flow {
    pub taken: bool,
    pub wide: bool,
    pub id: u32,
}

// That of a conversation's place.
fn flow_in(t: &[u8]) -> Flow
    requires { length t.now ≡ talk_size }
    ensures { (result.taken ≡ eqb (get_or t.now 0 0) 1) × (result.wide ≡ eqb (get_or t.now 1 0) 1) × (result.id ≡ word_at flow_in t.now) }
{
    Flow {
        taken: t[0] == 1,
        wide: t[1] == 1,
        id: integers::word_at(t, FLOW_IN),
    }
}

// Is there a conversation that sends with this identifier of this width?
fn has_filter(one: Flow, two: Flow, wide: bool, id: u32) -> bool
    ensures { result ≡ any_slot (carries wide id) (talks_by one two) }
{
    (one.taken & ((wide == one.wide) & (id == one.id)))
        | (two.taken & ((wide == two.wide) & (id == two.id)))
}

// Is a message whose size is good segmented, with no conversation to send it?
fn unmatched(m: &[u8], one: Flow, two: Flow) -> bool
    requires { (iso_record_size ≤ length m.now) × (least_message ≤ size_of m.now) }
    ensures { result ≡ unmatched_in (talks_by one two) m.now }
{
    let known = has_filter(
        one,
        two,
        message::is_wide(m),
        integers::id_at(m, places::DATA_IN),
    );
    (LONGEST_SINGLE < integers::word_at(m, places::SIZE_IN)) & !known
}

// Writing on a connection of these flags, with these conversations.
#[derive(Clone, Copy)]
struct Iso {
    flags: u32,
    one: Flow,
    two: Flow,
}

// Its queueing is written out beside that of raw CAN: the checks between, the size, the most held and the cell differ, and one body would need a law for each.
impl Queueing for Iso {
    ghost kind = { λ x. iso x.flags (talks_by x.one x.two) };

    fn queue(&self, store: &mut [u8], m: &[u8]) -> Result<(), Refusal> {
        iso_records::message_code(m, self.flags)?;
        if unmatched(m, self.one, self.two) {
            return Err(Refusal::NoFlowControl);
        }
        let held = store[0];
        if held >= MOST {
            return Err(Refusal::BufferFull);
        }
        let at = 1 + RECORD * held as usize;
        let end = at + RECORD;
        iso_records::put_clean(&mut store[at..end], m);
        store[0] = held + 1;
        Ok(())
    }
}

// Write: the first n records of the buffer, in order, until one is refused or 4 are held.
pub fn write(r: &mut [u8], n: u32, buffer: &[u8]) -> Moved
    requires { IsoOpened r.old }
    ensures { (rates : List ℕ) (t : ℕ) → gives (code_of result.end) result.count [] r.new ≡ iso_outcome rates t r.old (write_of n buffer.now) }
{
    if buffer.len() < RECORD * n as usize {
        return Moved {
            count: 0,
            end: Err(Refusal::NullParameter),
        };
    }
    let iso = Iso {
        flags: integers::word_at(r, places::FLAGS),
        one: flow_in(&r[TALKS_AT..SECOND]),
        two: flow_in(&r[SECOND..MESSAGES]),
    };
    writing::queue_all::<RECORD, Iso>(&iso, &mut r[MESSAGES..FLIGHT], n, buffer)
}
