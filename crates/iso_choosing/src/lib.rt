// The choice of the frame that is taken next on an ISO 15765 channel: a flow frame, else the transmission that is under way, else a written message.
#![tactic(auto)]

ghost use Rattle.std.specs.Prelude.{◌≡◌};
ghost use Rattle.std.proofs.Math.Option.{none};
ghost use Rattle.machine.specs.Filter.{any_slot};
ghost use Rattle.iso.specs.Iso.{transmitting, choice};
ghost use Rattle.iso_layout.specs.Promise.{IsoOpened};
ghost use Rattle.iso_giving.specs.Giving.{channel_in, Chose};

use iso_places::{TALK_SIZE, TALKS_AT, TRANSFER_IN};

// Where in a region the kinds of the two transfers stand; above this kind a transfer transmits.
const FIRST: usize = TALKS_AT + TRANSFER_IN;

const SECOND: usize = FIRST + TALK_SIZE;

const RECEIVES: u8 = 2;

// Does a conversation transmit?
fn transmits(r: &[u8]) -> bool
    requires { IsoOpened r.now }
    ensures { result ≡ any_slot (λ c. transmitting c.transfer) (channel_in r.now).talks }
{
    (RECEIVES < r[FIRST]) | (RECEIVES < r[SECOND])
}

// The frame that is taken next, where none is in flight, if there is one: it is in flight then.
pub fn choose(r: &mut [u8]) -> bool
    requires { IsoOpened r.old × ((channel_in r.old).flight ≡ none) }
    ensures { Chose (choice (channel_in r.old).talks (channel_in r.old).written) result r.old r.new }
{
    if iso_giving::answer(r) {
        return true;
    }
    if transmits(r) {
        return iso_giving::segment(r);
    }
    iso_sending::start(r)
}
