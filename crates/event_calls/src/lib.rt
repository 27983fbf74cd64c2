// The call that an event makes on a memory of the whole box that is known to be valid.
#![tactic(auto)]

ghost use Rattle.std.specs.Prelude.{◌≡◌, [], T};
ghost use Rattle.codes.specs.Code.{code_of, value_of};
ghost use Rattle.layout.specs.Promise.{gives};
ghost use Rattle.memory.specs.Memory.{valid};
ghost use Rattle.memory.specs.Promise.{outcome};
ghost use Rattle.events.specs.Found.{plain_of, giving_of, PlainThere, GivingThere};

use codes::Refusal;
use events::{Giving, Plain};

// The answer to an event that is answered by its code alone.
pub fn plain_code(mem: &mut [u8], rates: &[u32], recording: &[u8], e: Plain) -> Result<(), Refusal>
    requires { T (valid mem.old) × PlainThere recording.now e }
    ensures { gives (code_of result) 0 [] mem.new ≡ outcome rates.now mem.old (plain_of recording.now e) }
{
    match e {
        Plain::Disconnect(channel) => box_channels::disconnect(mem, channel),
        Plain::Close => box_lines::close(mem),
        Plain::Advance(us) => box_times::advance(mem, us),
        Plain::Frame {
            line,
            wide,
            id,
            from,
            end,
        } => box_frames::frame(mem, line, wide, id, &recording[from..end]),
        Plain::StopFilter(channel, filter) => box_orders::stop_filter(mem, channel, filter),
        Plain::StopPeriodic(channel, periodic) => box_orders::stop_periodic(mem, channel, periodic),
        Plain::Sent(channel) => box_traffic::sent(mem, channel),
        Plain::Clear(channel, kind) => box_channels::clear(mem, channel, kind),
        Plain::Set(channel, parameter, value) => box_channels::set(
            mem, rates, channel, parameter, value,
        ),
    }
}

// The answer to an event that gives a number where it is done.
pub fn giving_answer(
    mem: &mut [u8],
    rates: &[u32],
    recording: &[u8],
    e: Giving,
) -> Result<u32, Refusal>
    requires { T (valid mem.old) × GivingThere recording.now e }
    ensures { gives (code_of result) (value_of result) [] mem.new ≡ outcome rates.now mem.old (giving_of recording.now e) }
{
    match e {
        Giving::Connect(line, protocol, flags, rate) => {
            box_connecting::connect(mem, rates, line, protocol, flags, rate)
        }
        Giving::StartFilter {
            channel,
            kind,
            mask,
            pattern,
            end,
        } => box_orders::start_filter(
            mem,
            channel,
            kind,
            &recording[mask..pattern],
            &recording[pattern..end],
        ),
        Giving::StartFlow {
            channel,
            kind,
            mask,
            pattern,
            flow,
            end,
        } => box_orders::start_flow_filter(
            mem,
            channel,
            kind,
            &recording[mask..pattern],
            &recording[pattern..flow],
            &recording[flow..end],
        ),
        Giving::StartPeriodic {
            channel,
            from,
            end,
            interval,
        } => box_orders::start_periodic(mem, channel, &recording[from..end], interval),
        Giving::Get(channel, parameter) => box_channels::get(mem, channel, parameter),
    }
}
