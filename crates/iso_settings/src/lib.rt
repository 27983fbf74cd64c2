// Calls that configure an ISO 15765 channel and ask for its last code, on its region; and a code noted.
#![tactic(auto)]

ghost use Rattle.std.specs.Prelude.{◌≡◌, List, [], ℕ, ◌+◌, ◌≤◌, ◌<◌, length};
ghost use Rattle.codes.specs.Code.{code_of, value_of};
ghost use Rattle.machine.specs.Channel.{get_parameter, set_parameter, last_error};
ghost use Rattle.layout.specs.Promise.{gives};
ghost use Rattle.iso_layout.specs.Sizes.{iso_region_size, iso_last_at};
ghost use Rattle.iso_layout.specs.Promise.{IsoOpened, iso_outcome};
ghost use Rattle.memory.specs.Promise.{noted_in};

use codes::Refusal;

// Get: the rate in force or the loopback mark.
pub fn get_in(r: &[u8], parameter: u32) -> Result<u32, Refusal>
    requires { IsoOpened r.now }
    ensures { (rates : List ℕ) (t : ℕ) → gives (code_of result) (value_of result) [] r.now ≡ iso_outcome rates t r.now (get_parameter parameter) }
{
    configuring::get(&r[places::FLAGS..iso_places::TALKS_AT], parameter)
}

// Set: a rate of those lent, or loopback 0 or 1.
pub fn set_in(r: &mut [u8], rates: &[u32], parameter: u32, value: u32) -> Result<(), Refusal>
    requires { IsoOpened r.old }
    ensures { (t : ℕ) → gives (code_of result) 0 [] r.new ≡ iso_outcome rates.now t r.old (set_parameter parameter value) }
{
    configuring::set(
        &mut r[places::FLAGS..iso_places::TALKS_AT],
        rates,
        parameter,
        value,
    )
}

// The last code that an open channel keeps.
pub fn last_in(r: &[u8]) -> u32
    requires { IsoOpened r.now }
    ensures { (rates : List ℕ) (t : ℕ) → gives 0 result [] r.now ≡ iso_outcome rates t r.now last_error }
{
    integers::wide(r[iso_places::LAST])
}

// Notes a code as the last of the channel whose region begins at a place; 0x00 is not noted.
// Not one function with the note of a raw channel: each promises a definition of its own, and a common one would be as long as both.
pub fn note(mem: &mut [u8], at: usize, code: u32)
    requires { (at + iso_region_size ≤ length mem.old) × (code < 256) }
    ensures { mem.new ≡ noted_in iso_last_at at code mem.old }
{
    if code == codes::STATUS_NOERROR {
        return;
    }
    mem[at + iso_places::LAST] = code as u8;
}
