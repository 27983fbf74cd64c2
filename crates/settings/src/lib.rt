// Calls that configure and clear, on the region of one channel.
#![tactic(auto)]

ghost use Rattle.std.specs.Prelude.{◌≡◌, List, [], ℕ};
ghost use Rattle.codes.specs.Code.{code_of, value_of};
ghost use Rattle.machine.specs.Channel.{clear, get_parameter, set_parameter};
ghost use Rattle.layout.specs.Promise.{gives, Opened, call_outcome};

use codes::Refusal;

// Get: the rate in force or the loopback mark.
pub fn get_in(r: &[u8], parameter: u32) -> Result<u32, Refusal>
    requires { Opened r.now }
    ensures { (rates : List ℕ) (t : ℕ) → gives (code_of result) (value_of result) [] r.now ≡ call_outcome rates t r.now (get_parameter parameter) }
{
    configuring::get(&r[places::FLAGS..places::FILTERS], parameter)
}

// Set: a rate of those lent, or loopback 0 or 1.
pub fn set_in(r: &mut [u8], rates: &[u32], parameter: u32, value: u32) -> Result<(), Refusal>
    requires { Opened r.old }
    ensures { (t : ℕ) → gives (code_of result) 0 [] r.new ≡ call_outcome rates.now t r.old (set_parameter parameter value) }
{
    configuring::set(
        &mut r[places::FLAGS..places::FILTERS],
        rates,
        parameter,
        value,
    )
}

// Clear: written records, the receive queue with its lost mark, periodics or filters become zeros.
// The kinds are the numbers of the C interface; each has a return of its own, since each leaves another part of the channel.
pub fn clear_in(r: &mut [u8], kind: u32) -> Result<(), Refusal>
    requires { Opened r.old }
    ensures { (rates : List ℕ) (t : ℕ) → gives (code_of result) 0 [] r.new ≡ call_outcome rates t r.old (clear kind) }
{
    if kind == 1 {
        octets::zero(&mut r[places::WRITTEN..places::FLIGHT]);
        return Ok(());
    }
    if kind == 2 {
        octets::zero(&mut r[places::RECEIVING..places::RECEIVING_END]);
        return Ok(());
    }
    if kind == 3 {
        octets::zero(&mut r[places::PERIODICS..places::WRITTEN]);
        return Ok(());
    }
    if kind == 4 {
        octets::zero(&mut r[places::FILTERS..places::PERIODICS]);
        return Ok(());
    }
    Err(Refusal::InvalidIoctlId)
}
