// Periodics, of which an ISO 15765 channel has none: why their calls are refused on the region of an open one, which stays as it is.
#![tactic(auto)]

ghost use Rattle.std.specs.Prelude.{◌≡◌, List, [], ℕ};
ghost use Rattle.codes.specs.Code.{number_of};
ghost use Rattle.machine.specs.Channel.{start_periodic, stop_periodic};
ghost use Rattle.layout.specs.Promise.{gives};
ghost use Rattle.iso_layout.specs.Promise.{IsoOpened, iso_outcome};

use codes::Refusal;
use iso_places::RECORD;

// Start: 0x04 where the lent message is shorter than a record, else 0x01.
pub fn start_in(message: &[u8]) -> Refusal
    ensures { (r : List ℕ) → IsoOpened r → (rates : List ℕ) (t interval : ℕ) → gives (number_of result) 0 [] r ≡ iso_outcome rates t r (start_periodic message.now interval) }
{
    if message.len() < RECORD {
        return Refusal::NullParameter;
    }
    Refusal::NotSupported
}

// Stop: no number is that of a periodic.
pub fn stop_in() -> Refusal
    ensures { (r : List ℕ) → IsoOpened r → (rates : List ℕ) (t number : ℕ) → gives (number_of result) 0 [] r ≡ iso_outcome rates t r (stop_periodic number) }
{
    Refusal::InvalidMsgId
}
