// The four calls on a TP2.0 connection, on the region of the channel whose line it is on: it is opened, sends and receives messages, and is ended.
#![tactic(auto)]

ghost use Rattle.std.specs.Prelude.{◌≡◌, false, List, [], ℕ, drop};
ghost use Rattle.codes.specs.Code.{code_of, value_of};
ghost use Rattle.machine.specs.Message.{takes};
ghost use Rattle.machine.specs.Channel.{link_open, link_send, link_receive, link_end};
ghost use Rattle.layout.specs.Memory.{open_part};
ghost use Rattle.layout.specs.Promise.{gives, Opened, call_outcome};
ghost use Rattle.link_asking.specs.Asking.{asks};

use codes::Refusal;
use link_asking::Asking;
use link_places::MOST_BYTES;
use places::{LINK, REGION};

// The states of a connection: one that opens is the first, one that stands the last that can be ended.
const OPENING: u8 = 1;

const STANDING: u8 = 3;

// Does the channel take narrow frames, which a connection needs?
fn narrow(r: &[u8]) -> bool
    requires { Opened r.now }
    ensures { result ≡ takes (open_part.get (drop 1 r.now)).config.flags false }
{
    can::takes_width(integers::word_at(r, places::FLAGS), false)
}

// Open: a connection with these fields, where none is there.
pub fn open(r: &mut [u8], a: Asking) -> Result<(), Refusal>
    requires { Opened r.old }
    ensures { (rates : List ℕ) (t : ℕ) → gives (code_of result) 0 [] r.new ≡ call_outcome rates t r.old (link_open (asks a)) }
{
    if !narrow(r) {
        return Err(Refusal::InvalidMsg);
    }
    if !link_asking::asked_fits(a) {
        return Err(Refusal::InvalidMsg);
    }
    if r[LINK] != 0 {
        return Err(Refusal::ChannelInUse);
    }
    link_asking::open(&mut r[LINK..REGION], a);
    Ok(())
}

// Send: a message of 1 to 512 bytes, on a connection that stands and has none under way.
pub fn send(r: &mut [u8], message: &[u8]) -> Result<(), Refusal>
    requires { Opened r.old }
    ensures { (rates : List ℕ) (t : ℕ) → gives (code_of result) 0 [] r.new ≡ call_outcome rates t r.old (link_send message.now) }
{
    if !narrow(r) {
        return Err(Refusal::InvalidMsg);
    }
    if r[LINK] != STANDING {
        return Err(Refusal::Failed);
    }
    if message.len() < 1 {
        return Err(Refusal::InvalidMsg);
    }
    if message.len() > MOST_BYTES {
        return Err(Refusal::InvalidMsg);
    }
    if link_calls::busy(&r[LINK..REGION]) {
        return Err(Refusal::BufferFull);
    }
    link_calls::begin(&mut r[LINK..REGION], message);
    Ok(())
}

// Receive: the complete message to the front of a buffer of at least 512 bytes, and its length.
pub fn receive(r: &mut [u8], buffer: &mut [u8]) -> Result<u32, Refusal>
    requires { Opened r.old }
    ensures { (rates : List ℕ) (t : ℕ) → gives (code_of result) (value_of result) buffer.new r.new ≡ call_outcome rates t r.old (link_receive buffer.old) }
{
    if buffer.len() < MOST_BYTES {
        return Err(Refusal::NullParameter);
    }
    if !narrow(r) {
        return Err(Refusal::InvalidMsg);
    }
    if r[LINK] != STANDING {
        return Err(Refusal::Failed);
    }
    let n = link_calls::complete(&r[LINK..REGION]);
    if n == 0 {
        return Err(Refusal::BufferEmpty);
    }
    link_calls::fetch(&mut r[LINK..REGION], buffer);
    Ok(n)
}

// End: a connection that opens, connects or stands is ended.
pub fn end(r: &mut [u8]) -> Result<(), Refusal>
    requires { Opened r.old }
    ensures { (rates : List ℕ) (t : ℕ) → gives (code_of result) 0 [] r.new ≡ call_outcome rates t r.old link_end }
{
    if !narrow(r) {
        return Err(Refusal::InvalidMsg);
    }
    if r[LINK] < OPENING {
        return Err(Refusal::Failed);
    }
    if r[LINK] > STANDING {
        return Err(Refusal::Failed);
    }
    link_ending::end(&mut r[LINK..REGION]);
    Ok(())
}
