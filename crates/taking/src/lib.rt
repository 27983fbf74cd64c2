// Taking: the record in flight, or the chosen one, which then is in flight.
#![tactic(auto)]

ghost use Rattle.std.specs.Prelude.{◌≡◌, List, ◌∷◌, ℕ, ◌≤◌, length, get_or};
ghost use Rattle.codes.specs.Code.{code_of};
ghost use Rattle.machine.specs.Limits.{record_size};
ghost use Rattle.machine.specs.Channel.{take_next};
ghost use Rattle.layout.specs.Sizes.{flight_at, flight_size};
ghost use Rattle.layout.specs.Promise.{gives, Opened, call_outcome};

use codes::Refusal;

// Where in a region the record in flight begins, behind its mark.
const FLYING: usize = places::FLIGHT + 1;

// A record of 36 bytes over another, by way of a third: whether the two overlap then plays no part, and it is done in a few wide moves.
fn copy_record(d: &mut [u8], s: &[u8])
    requires { (length d.old ≡ record_size) × (length s.now ≡ record_size) }
    ensures { d.new ≡ s.now }
{
    let mut between = [0u8; places::RECORD];
    octets::copy(&mut between, s);
    octets::copy(d, &between);
}

// A record of 36 bytes is in flight.
fn launch(flight: &mut [u8], m: &[u8])
    requires { (length flight.old ≡ flight_size) × (length m.now ≡ record_size) }
    ensures { flight.new ≡ 1 ∷ m.now }
{
    copy_record(&mut flight[1..places::FLIGHT_SIZE], m);
    flight[0] = 1;
}

// Take, where nothing is in flight: the chosen record goes in flight and to the buffer.
fn take_next(r: &mut [u8], buffer: &mut [u8]) -> Result<(), Refusal>
    requires { Opened r.old × (get_or r.old flight_at 0 ≡ 0) × (record_size ≤ length buffer.old) }
    ensures { (rates : List ℕ) (t : ℕ) → gives (code_of result) 0 buffer.new r.new ≡ call_outcome rates t r.old (take_next buffer.old) }
{
    let i = pending::first_pending(&r[places::PERIODICS..places::WRITTEN]);
    let mut telegram = [0u8; places::RECORD];
    let there = offering::offer(r, i, &mut telegram);
    if (i >= places::PLACES) & !there & (r[places::WRITTEN] == 0) {
        return Err(Refusal::BufferEmpty);
    }
    copy_record(
        &mut buffer[0..places::RECORD],
        choosing::choice(
            &r[places::PERIODICS..places::WRITTEN],
            &telegram,
            &r[places::WRITTEN..places::FLIGHT],
            i,
            there,
        ),
    );
    choosing::free(r, i, there);
    launch(
        &mut r[places::FLIGHT..places::RECEIVING],
        &buffer[0..places::RECORD],
    );
    Ok(())
}

// Take: the record in flight, or the chosen one, which then is in flight.
pub fn take(r: &mut [u8], buffer: &mut [u8]) -> Result<(), Refusal>
    requires { Opened r.old }
    ensures { (rates : List ℕ) (t : ℕ) → gives (code_of result) 0 buffer.new r.new ≡ call_outcome rates t r.old (take_next buffer.old) }
{
    if buffer.len() < places::RECORD {
        return Err(Refusal::NullParameter);
    }
    if r[places::FLIGHT] == 0 {
        return take_next(r, buffer);
    }
    copy_record(
        &mut buffer[0..places::RECORD],
        &r[FLYING..places::RECEIVING],
    );
    Ok(())
}
