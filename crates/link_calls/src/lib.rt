// The calls on a connection: whether a message is under way, one to send, how long the complete one is, and the complete one fetched.
#![tactic(auto)]

ghost use Rattle.std.specs.Prelude.{◌≡◌, false, ◌++◌, ◌≤◌, ◌<◌, T, length, get_or, drop};
ghost use Rattle.link.specs.Connection.{longest, new_block, idle, sends, busy as busy_of, whole, begin as begun, fetched};
ghost use Rattle.link_layout.specs.Sizes.{out_size, hear_size};
ghost use Rattle.link_layout.specs.Connection.{out, hear, connection_part};
ghost use Rattle.link_layout.specs.Turned.{LinkPart};
ghost use Rattle.link_calls.specs.Fetching.{emptied};

use link_places::{
    BLOCK_IN, BYTES_IN, COMPLETE_IN, HEAR_AT, HEAR_SIZE, LINK, OUT_AT, OUT_SIZE, REST_IN,
};

// The state of a connection that stands; the tag of a message whose telegrams are sent.
const STANDING: u8 = 3;

const SENDS: u8 = 1;
// In what is sent, the bytes of a message; in the connection, the complete mark, what is received, and its first byte.
const MESSAGE_IN: usize = BLOCK_IN + REST_IN;

const COMPLETE: usize = HEAR_AT + COMPLETE_IN;

const RECEIVED: usize = HEAR_AT + BYTES_IN;

const FIRST: usize = RECEIVED + places::NUMBER;

// Is a message under way?
pub fn busy(part: &[u8]) -> bool
    requires { LinkPart part.now }
    ensures { result ≡ busy_of (connection_part.get part.now) }
{
    (part[0] == STANDING) & (part[OUT_AT] != 0)
}

// A message's first block, where none is under way.
fn start(s: &mut [u8], message: &[u8])
    requires { (length s.old ≡ out_size) × (s.old ≡ out.put idle) × (length message.now ≤ longest) }
    ensures { s.new ≡ out.put (sends (new_block message.now)) }
{
    link_store::put(&mut s[MESSAGE_IN..OUT_SIZE], message);
    s[0] = SENDS;
}

// A message to send, on a connection that stands and has none under way.
pub fn begin(part: &mut [u8], message: &[u8])
    requires { LinkPart part.old × (get_or part.old 0 0 ≡ 3) × (busy_of (connection_part.get part.old) ≡ false) × (length message.now ≤ longest) }
    ensures { part.new ≡ connection_part.put (begun message.now (connection_part.get part.old)) }
{
    start(&mut part[OUT_AT..HEAR_AT], message);
}

// How many bytes the complete message has, 0 where none waits.
pub fn complete(part: &[u8]) -> u32
    requires { LinkPart part.now }
    ensures { (result ≡ length (whole (connection_part.get part.now))) × (result ≤ longest) }
{
    if part[0] != STANDING {
        return 0;
    }
    if part[COMPLETE] == 0 {
        return 0;
    }
    link_store::count(&part[RECEIVED..LINK])
}

// What is received, without its message.
fn empty(s: &mut [u8])
    requires { (length s.old ≡ hear_size) × T (hear.valid s.old) }
    ensures { s.new ≡ hear.put (emptied (hear.get s.old)) }
{
    link_store::clear(&mut s[BYTES_IN..HEAR_SIZE]);
    s[COMPLETE_IN] = 0;
}

// The complete message, to the front of a buffer; the connection has it no more.
pub fn fetch(part: &mut [u8], buffer: &mut [u8])
    requires { LinkPart part.old × (0 < length (whole (connection_part.get part.old))) × (length (whole (connection_part.get part.old)) ≤ length buffer.old) }
    ensures { (buffer.new ≡ whole (connection_part.get part.old) ++ drop (length (whole (connection_part.get part.old))) buffer.old) × (part.new ≡ connection_part.put (fetched (connection_part.get part.old))) }
{
    let n = link_store::count(&part[RECEIVED..LINK]) as usize;
    let end = FIRST + n;
    octets::copy(&mut buffer[0..n], &part[FIRST..end]);
    empty(&mut part[HEAR_AT..LINK]);
}
