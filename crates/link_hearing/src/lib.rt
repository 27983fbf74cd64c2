// A narrow frame of the line reaches a TP2.0 connection, whatever its state.
#![tactic(auto)]

ghost use Rattle.std.specs.Prelude.{◌≡◌, get_or};
ghost use Rattle.link.specs.Connection.{hears as hearing};
ghost use Rattle.link_layout.specs.Connection.{connection_part};
ghost use Rattle.link_layout.specs.Turned.{LinkPart};

use link_places::{ASKED_AT, RX_ID_IN};

// States of a connection that a frame can reach.
const OPENING: u8 = 1;

const CONNECTING: u8 = 2;

const STANDING: u8 = 3;

// A frame reaches a connection that stands.
fn tell(part: &mut [u8], id: u32, bytes: &[u8])
    requires { LinkPart part.old × (get_or part.old 0 0 ≡ 3) }
    ensures { part.new ≡ connection_part.put (hearing (connection_part.get part.old) id bytes.now) }
{
    if id == integers::word_at(part, ASKED_AT + RX_ID_IN) {
        link_telling::told(part, bytes);
    }
}

// A frame reaches a connection.
pub fn hears(part: &mut [u8], id: u32, bytes: &[u8])
    requires { LinkPart part.old }
    ensures { part.new ≡ connection_part.put (hearing (connection_part.get part.old) id bytes.now) }
{
    let state = part[0];
    if state == OPENING {
        link_replies::reply(part, id, bytes);
        return;
    }
    if state == CONNECTING {
        link_joining::join(part, id, bytes);
        return;
    }
    if state == STANDING {
        tell(part, id, bytes);
    }
}
