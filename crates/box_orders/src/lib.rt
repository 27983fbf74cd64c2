// Standing orders of a channel, on a memory of the whole box that is known to be valid: its filters and periodics are started and stopped.
#![tactic(auto)]

ghost use Rattle.std.specs.Prelude.{◌≡◌, List, [], ℕ, T};
ghost use Rattle.codes.specs.Code.{code_of, value_of};
ghost use Rattle.machine.specs.Channel.{start_filter, start_flow, stop_filter, start_periodic, stop_periodic};
ghost use Rattle.machine.specs.Step.{call};
ghost use Rattle.layout.specs.Promise.{gives};
ghost use Rattle.memory.specs.Memory.{valid};
ghost use Rattle.memory.specs.Promise.{outcome};

use calling::Listeners;
use codes::Refusal;

// A filter more, by the smallest free number; the third record is that of an ISO 15765 channel alone.
pub fn start_flow_filter(
    mem: &mut [u8],
    channel: u32,
    kind: u32,
    mask: &[u8],
    pattern: &[u8],
    flow: &[u8],
) -> Result<u32, Refusal>
    requires { T (valid mem.old) }
    ensures { (rates : List ℕ) → gives (code_of result) (value_of result) [] mem.new ≡ outcome rates mem.old (call channel (start_flow kind mask.now pattern.now flow.now)) }
{
    calling::on_channel(
        mem,
        channel,
        Listeners::Serve,
        |r| filters::start_filter(r, kind, mask, pattern),
        |r| iso_starting::start_in(r, kind, mask, pattern, flow),
    )
}

// A filter more, where no third record is lent.
pub fn start_filter(
    mem: &mut [u8],
    channel: u32,
    kind: u32,
    mask: &[u8],
    pattern: &[u8],
) -> Result<u32, Refusal>
    requires { T (valid mem.old) }
    ensures { (rates : List ℕ) → gives (code_of result) (value_of result) [] mem.new ≡ outcome rates mem.old (call channel (start_filter kind mask.now pattern.now)) }
{
    let none = mask.len();
    start_flow_filter(mem, channel, kind, mask, pattern, &mask[none..])
}

// A filter less.
pub fn stop_filter(mem: &mut [u8], channel: u32, number: u32) -> Result<(), Refusal>
    requires { T (valid mem.old) }
    ensures { (rates : List ℕ) → gives (code_of result) 0 [] mem.new ≡ outcome rates mem.old (call channel (stop_filter number)) }
{
    calling::on_channel(
        mem,
        channel,
        Listeners::Serve,
        |r| filters::stop_filter(r, number),
        |r| iso_clearing::stop_in(r, number),
    )
}

// A periodic more, by the smallest free number; it is pending at once. A listener and an ISO 15765 channel have none.
pub fn start_periodic(
    mem: &mut [u8],
    channel: u32,
    message: &[u8],
    interval: u32,
) -> Result<u32, Refusal>
    requires { T (valid mem.old) }
    ensures { (rates : List ℕ) → gives (code_of result) (value_of result) [] mem.new ≡ outcome rates mem.old (call channel (start_periodic message.now interval)) }
{
    calling::on_channel(
        mem,
        channel,
        Listeners::Refuse,
        |r| periodics::start_periodic(r, message, interval),
        |_| Err(iso_periodics::start_in(message)),
    )
}

// A periodic less. An ISO 15765 channel has none.
pub fn stop_periodic(mem: &mut [u8], channel: u32, number: u32) -> Result<(), Refusal>
    requires { T (valid mem.old) }
    ensures { (rates : List ℕ) → gives (code_of result) 0 [] mem.new ≡ outcome rates mem.old (call channel (stop_periodic number)) }
{
    calling::on_channel(
        mem,
        channel,
        Listeners::Serve,
        |r| periodics::stop_periodic(r, number),
        |_| Err(iso_periodics::stop_in()),
    )
}
