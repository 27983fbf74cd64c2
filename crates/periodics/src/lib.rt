// The periodics of a channel, started and stopped.
#![tactic(auto)]

ghost use Rattle.std.specs.Prelude.{◌≡◌, List, [], ℕ};
ghost use Rattle.codes.specs.Code.{code_of, value_of};
ghost use Rattle.machine.specs.Channel.{start_periodic, stop_periodic};
ghost use Rattle.layout.specs.Promise.{Opened, Speaker, gives, call_outcome};
ghost use Rattle.periodics.specs.Start.{start_code};

use codes::Refusal;

// The last number of a periodic, and an interval in milliseconds.
const LAST: u32 = places::PLACES as u32;

const LEAST_INTERVAL: u32 = 5;

const MOST_INTERVAL: u32 = 65535;

// The checks of a start: its lent record, its interval and its message, in the scope's order.
fn start_code(message: &[u8], interval: u32, flags: u32) -> Result<(), Refusal>
    ensures { code_of result ≡ start_code flags message.now interval }
{
    if message.len() < places::RECORD {
        return Err(Refusal::NullParameter);
    }
    if interval < LEAST_INTERVAL {
        return Err(Refusal::InvalidTimeInterval);
    }
    if interval > MOST_INTERVAL {
        return Err(Refusal::InvalidTimeInterval);
    }
    message::message_code(message, flags)
}

// Start: a new periodic under the smallest free number.
// Not one function with the start of a filter: that one's tests look at the place, and the maps follow, so a common one would be lent each step.
pub fn start_periodic(r: &mut [u8], message: &[u8], interval: u32) -> Result<u32, Refusal>
    requires { Speaker r.old }
    ensures { (rates : List ℕ) (t : ℕ) → gives (code_of result) (value_of result) [] r.new ≡ call_outcome rates t r.old (start_periodic message.now interval) }
{
    start_code(message, interval, integers::word_at(r, places::FLAGS))?;
    let i = placing::first_free(&r[places::PERIODICS..places::WRITTEN]);
    if i >= places::PLACES {
        return Err(Refusal::ExceededLimit);
    }
    placing::start_at(
        &mut r[places::PERIODICS..places::WRITTEN],
        i,
        message,
        interval,
    );
    Ok(i as u32 + 1)
}

// Stop: the place of that number is emptied; 0x0D where it is empty or there is no such place.
pub fn stop_periodic(r: &mut [u8], number: u32) -> Result<(), Refusal>
    requires { Opened r.old }
    ensures { (rates : List ℕ) (t : ℕ) → gives (code_of result) 0 [] r.new ≡ call_outcome rates t r.old (stop_periodic number) }
{
    if number < 1 {
        return Err(Refusal::InvalidMsgId);
    }
    if number > LAST {
        return Err(Refusal::InvalidMsgId);
    }
    let i = number as usize - 1;
    if integers::word_at(&r[places::PERIODICS..places::WRITTEN], i * places::NUMBER) == 0 {
        return Err(Refusal::InvalidMsgId);
    }
    placing::stop_at(&mut r[places::PERIODICS..places::WRITTEN], i);
    Ok(())
}
