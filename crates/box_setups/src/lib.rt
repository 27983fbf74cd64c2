// A channel's set-up saved and loaded, on a memory of the whole box that is known to be valid. The number is that of a raw channel.
#![tactic(auto)]

ghost use Rattle.std.specs.Prelude.{◌≡◌, List, [], ℕ, T};
ghost use Rattle.codes.specs.Code.{code_of, value_of};
ghost use Rattle.machine.specs.Channel.{save_setup, load_setup};
ghost use Rattle.machine.specs.Step.{call};
ghost use Rattle.layout.specs.Promise.{gives};
ghost use Rattle.memory.specs.Memory.{valid};
ghost use Rattle.memory.specs.Promise.{outcome};

use calling::Listeners;
use codes::Refusal;
use places::REGION;

// Writes a channel's filters, periodics and configuration to a buffer; how many bytes they take.
pub fn save(mem: &mut [u8], channel: u32, buffer: &mut [u8]) -> Result<u32, Refusal>
    requires { T (valid mem.old) }
    ensures { (rates : List ℕ) → gives (code_of result) (value_of result) buffer.new mem.new ≡ outcome rates mem.old (call channel (save_setup buffer.old)) }
{
    let Some(at) = seats::raw_seat_of(mem, channel) else {
        return Err(Refusal::InvalidChannelId);
    };
    let saved = saving::save_in(&mem[at..at + REGION], buffer);
    noting::note(mem, at, codes::code_of(saved));
    saved
}

// Replaces a channel's filters, periodics and configuration by those of a store; a rate is one of the rates lent.
pub fn load(mem: &mut [u8], rates: &[u32], channel: u32, store: &[u8]) -> Result<(), Refusal>
    requires { T (valid mem.old) }
    ensures { gives (code_of result) 0 [] mem.new ≡ outcome rates.now mem.old (call channel (load_setup store.now)) }
{
    calling::on_raw_channel(
        mem,
        channel,
        Listeners::Serve,
        |r| loading::load_in(r, rates, store),
    )
}
