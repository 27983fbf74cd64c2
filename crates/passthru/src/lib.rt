// The box as C calls it: numbers, byte slices and slices of two-number structs only. A number that goes with a code is stored through a pointer, always: 0 where there is none.
#![tactic(auto)]

ghost use Rattle.std.specs.Prelude.{◌≡◌, [], not, eqb};
ghost use Rattle.codes.specs.Code.{code_of, value_of};
ghost use Rattle.machine.specs.Codes.{two_rates};
ghost use Rattle.machine.specs.Channel.{disconnect, clear, write, read, take_next, sent, start_filter, start_flow, stop_filter, start_periodic, stop_periodic, get_parameter, set_parameter, last_error, get_list, set_list, flat, link_open, link_send, link_receive, link_end, decide, save_setup, load_setup};
ghost use Rattle.machine.specs.Step.{call, connect, close, advance, frame};
ghost use Rattle.layout.specs.Promise.{gives};
ghost use Rattle.memory.specs.Memory.{valid};
ghost use Rattle.memory.specs.Promise.{outcome, power_on_outcome};
ghost use Rattle.device_lists.specs.Lists.{listed};
ghost use Rattle.link_asking.specs.Asking.{asked_of};
ghost use Rattle.telegram.specs.Bits.{bit_value};
ghost use Rattle.telegram.specs.Telegram.{time_of, read_any};
ghost use Rattle.recording.specs.Replay.{leaves, pieced};
ghost use Rattle.telegram_record.specs.Crossing.{gave, reading, writing};

use codes::Refusal;
use device::{Asking, Pair};

// A test as a number.
fn bit(b: bool) -> u32
    ensures { result ≡ bit_value b }
{
    u32::from(b)
}

// How an answer crosses: its number behind the lent pointer, its code as the result.
fn crossed(answer: Result<u32, Refusal>, number: &mut u32) -> u32
    ensures { (result ≡ code_of answer) × (number.new ≡ value_of answer) }
{
    *number = codes::value_of(answer);
    codes::code_of(answer)
}

// 1 where the bytes are a device memory, else 0.
#[unsafe(no_mangle)]
pub extern "C" fn trawl_valid(mem: &[u8]) -> u32
    ensures { result ≡ bit_value (valid mem.now) }
{
    bit(device::valid(mem))
}

// Any bytes of the right size become the memory of a box just switched on.
#[unsafe(no_mangle)]
pub extern "C" fn trawl_power_on(mem: &mut [u8]) -> u32
    ensures { gives result 0 [] mem.new ≡ power_on_outcome mem.old }
{
    codes::code_of(device::power_on(mem))
}

// Opens the channel of a line and gives its number.
#[unsafe(no_mangle)]
pub extern "C" fn trawl_connect(
    mem: &mut [u8],
    line: u32,
    protocol: u32,
    flags: u32,
    rate: u32,
    channel: &mut u32,
) -> u32
    ensures { gives result channel.new [] mem.new ≡ outcome two_rates mem.old (connect line protocol flags rate) }
{
    crossed(device::connect(mem, line, protocol, flags, rate), channel)
}

// Disconnects all; the clock runs on.
#[unsafe(no_mangle)]
pub extern "C" fn trawl_close(mem: &mut [u8]) -> u32
    ensures { gives result 0 [] mem.new ≡ outcome two_rates mem.old close }
{
    codes::code_of(device::close(mem))
}

// Time goes on, for the clock and every timer.
#[unsafe(no_mangle)]
pub extern "C" fn trawl_advance(mem: &mut [u8], us: u32) -> u32
    ensures { gives result 0 [] mem.new ≡ outcome two_rates mem.old (advance us) }
{
    codes::code_of(device::advance(mem, us))
}

// A frame from a line, offered to the line's channels.
#[unsafe(no_mangle)]
pub extern "C" fn trawl_frame(mem: &mut [u8], line: u32, wide: u32, id: u32, bytes: &[u8]) -> u32
    ensures { gives result 0 [] mem.new ≡ outcome two_rates mem.old (frame line wide id bytes.now) }
{
    codes::code_of(device::frame(mem, line, wide, id, bytes))
}

// Closes a channel.
#[unsafe(no_mangle)]
pub extern "C" fn trawl_disconnect(mem: &mut [u8], channel: u32) -> u32
    ensures { gives result 0 [] mem.new ≡ outcome two_rates mem.old (call channel disconnect) }
{
    codes::code_of(device::disconnect(mem, channel))
}

// A filter more; its number.
#[unsafe(no_mangle)]
pub extern "C" fn trawl_start_filter(
    mem: &mut [u8],
    channel: u32,
    kind: u32,
    mask: &[u8],
    pattern: &[u8],
    number: &mut u32,
) -> u32
    ensures { gives result number.new [] mem.new ≡ outcome two_rates mem.old (call channel (start_filter kind mask.now pattern.now)) }
{
    crossed(
        device::start_filter(mem, channel, kind, mask, pattern),
        number,
    )
}

// A filter more, with the record of its flow control; its number.
#[unsafe(no_mangle)]
pub extern "C" fn trawl_start_flow_filter(
    mem: &mut [u8],
    channel: u32,
    kind: u32,
    mask: &[u8],
    pattern: &[u8],
    flow: &[u8],
    number: &mut u32,
) -> u32
    ensures { gives result number.new [] mem.new ≡ outcome two_rates mem.old (call channel (start_flow kind mask.now pattern.now flow.now)) }
{
    crossed(
        device::start_flow_filter(mem, channel, kind, mask, pattern, flow),
        number,
    )
}

// A filter less.
#[unsafe(no_mangle)]
pub extern "C" fn trawl_stop_filter(mem: &mut [u8], channel: u32, number: u32) -> u32
    ensures { gives result 0 [] mem.new ≡ outcome two_rates mem.old (call channel (stop_filter number)) }
{
    codes::code_of(device::stop_filter(mem, channel, number))
}

// A periodic more; its number.
#[unsafe(no_mangle)]
pub extern "C" fn trawl_start_periodic(
    mem: &mut [u8],
    channel: u32,
    message: &[u8],
    interval: u32,
    number: &mut u32,
) -> u32
    ensures { gives result number.new [] mem.new ≡ outcome two_rates mem.old (call channel (start_periodic message.now interval)) }
{
    crossed(
        device::start_periodic(mem, channel, message, interval),
        number,
    )
}

// A periodic less.
#[unsafe(no_mangle)]
pub extern "C" fn trawl_stop_periodic(mem: &mut [u8], channel: u32, number: u32) -> u32
    ensures { gives result 0 [] mem.new ≡ outcome two_rates mem.old (call channel (stop_periodic number)) }
{
    codes::code_of(device::stop_periodic(mem, channel, number))
}

// Queues records to send; how many.
#[unsafe(no_mangle)]
pub extern "C" fn trawl_write(
    mem: &mut [u8],
    channel: u32,
    n: u32,
    buffer: &[u8],
    count: &mut u32,
) -> u32
    ensures { gives result count.new [] mem.new ≡ outcome two_rates mem.old (call channel (write n buffer.now)) }
{
    let moved = device::write(mem, channel, n, buffer);
    *count = moved.count;
    codes::code_of(moved.end)
}

// Moves received records to a buffer; how many.
#[unsafe(no_mangle)]
pub extern "C" fn trawl_read(
    mem: &mut [u8],
    channel: u32,
    n: u32,
    buffer: &mut [u8],
    count: &mut u32,
) -> u32
    ensures { gives result count.new buffer.new mem.new ≡ outcome two_rates mem.old (call channel (read n buffer.old)) }
{
    let moved = device::read(mem, channel, n, buffer);
    *count = moved.count;
    codes::code_of(moved.end)
}

// The frame to send next, to a buffer; it stays in flight.
#[unsafe(no_mangle)]
pub extern "C" fn trawl_take(mem: &mut [u8], channel: u32, buffer: &mut [u8]) -> u32
    ensures { gives result 0 buffer.new mem.new ≡ outcome two_rates mem.old (call channel (take_next buffer.old)) }
{
    codes::code_of(device::take(mem, channel, buffer))
}

// The frame in flight is on the line.
#[unsafe(no_mangle)]
pub extern "C" fn trawl_sent(mem: &mut [u8], channel: u32) -> u32
    ensures { gives result 0 [] mem.new ≡ outcome two_rates mem.old (call channel sent) }
{
    codes::code_of(device::sent(mem, channel))
}

// Empties one kind of what a channel holds.
#[unsafe(no_mangle)]
pub extern "C" fn trawl_clear(mem: &mut [u8], channel: u32, kind: u32) -> u32
    ensures { gives result 0 [] mem.new ≡ outcome two_rates mem.old (call channel (clear kind)) }
{
    codes::code_of(device::clear(mem, channel, kind))
}

// A parameter's value.
#[unsafe(no_mangle)]
pub extern "C" fn trawl_get(mem: &mut [u8], channel: u32, parameter: u32, value: &mut u32) -> u32
    ensures { gives result value.new [] mem.new ≡ outcome two_rates mem.old (call channel (get_parameter parameter)) }
{
    crossed(device::get(mem, channel, parameter), value)
}

// A parameter's new value.
#[unsafe(no_mangle)]
pub extern "C" fn trawl_set(mem: &mut [u8], channel: u32, parameter: u32, value: u32) -> u32
    ensures { gives result 0 [] mem.new ≡ outcome two_rates mem.old (call channel (set_parameter parameter value)) }
{
    codes::code_of(device::set(mem, channel, parameter, value))
}

// Sets a list of parameters, in order, up to the first refused one.
#[unsafe(no_mangle)]
pub extern "C" fn trawl_set_list(mem: &mut [u8], channel: u32, pairs: &[Pair]) -> u32
    ensures { gives result 0 [] mem.new ≡ outcome two_rates mem.old (call channel (set_list (listed pairs.now))) }
{
    codes::code_of(device::set_list(mem, channel, pairs))
}

// Gets a list of parameters, in order, each value in its own pair, up to the first refused one.
#[unsafe(no_mangle)]
pub extern "C" fn trawl_get_list(mem: &mut [u8], channel: u32, pairs: &mut [Pair]) -> u32
    ensures { gives result 0 (flat (listed pairs.new)) mem.new ≡ outcome two_rates mem.old (call channel (get_list (listed pairs.old))) }
{
    codes::code_of(device::get_list(mem, channel, pairs))
}

// What went wrong last on a channel; asking changes nothing.
#[unsafe(no_mangle)]
pub extern "C" fn trawl_last_error(mem: &[u8], channel: u32, code: &mut u32) -> u32
    ensures { gives result code.new [] mem.now ≡ outcome two_rates mem.now (call channel last_error) }
{
    crossed(device::last_error(mem, channel), code)
}

// What becomes of every frame of a width with an identifier: 0 dropped, 1 passes, 2 the data must be seen.
#[unsafe(no_mangle)]
pub extern "C" fn trawl_decide(
    mem: &mut [u8],
    channel: u32,
    wide: u32,
    id: u32,
    answer: &mut u32,
) -> u32
    ensures { gives result answer.new [] mem.new ≡ outcome two_rates mem.old (call channel (decide wide id)) }
{
    let decided = device::decide(mem, channel, wide, id);
    *answer = decision::told(decided);
    codes::code_of(decided)
}

// Saves a raw channel's set-up as a store, over the start of a buffer; its length.
#[unsafe(no_mangle)]
pub extern "C" fn trawl_save(
    mem: &mut [u8],
    channel: u32,
    buffer: &mut [u8],
    length: &mut u32,
) -> u32
    ensures { gives result length.new buffer.new mem.new ≡ outcome two_rates mem.old (call channel (save_setup buffer.old)) }
{
    crossed(device::save(mem, channel, buffer), length)
}

// Loads a store onto a raw channel, or changes nothing.
#[unsafe(no_mangle)]
pub extern "C" fn trawl_load(mem: &mut [u8], channel: u32, store: &[u8]) -> u32
    ensures { gives result 0 [] mem.new ≡ outcome two_rates mem.old (call channel (load_setup store.now)) }
{
    codes::code_of(device::load(mem, channel, store))
}

// Asks for a TP2.0 connection on a raw channel's line.
#[unsafe(no_mangle)]
pub extern "C" fn trawl_link_open(
    mem: &mut [u8],
    channel: u32,
    own: u32,
    destination: u32,
    rx: u32,
    application: u32,
    size: u32,
    t1: u32,
    t3: u32,
) -> u32
    ensures { gives result 0 [] mem.new ≡ outcome two_rates mem.old (call channel (link_open (asked_of own destination rx application size t1 t3))) }
{
    let asking = Asking {
        own,
        destination,
        rx,
        application,
        size,
        t1,
        t3,
    };
    codes::code_of(device::link_open(mem, channel, asking))
}

// A message to the partner of a connection.
#[unsafe(no_mangle)]
pub extern "C" fn trawl_link_send(mem: &mut [u8], channel: u32, message: &[u8]) -> u32
    ensures { gives result 0 [] mem.new ≡ outcome two_rates mem.old (call channel (link_send message.now)) }
{
    codes::code_of(device::link_send(mem, channel, message))
}

// The complete message that a connection received, to a buffer; its length.
#[unsafe(no_mangle)]
pub extern "C" fn trawl_link_receive(
    mem: &mut [u8],
    channel: u32,
    buffer: &mut [u8],
    length: &mut u32,
) -> u32
    ensures { gives result length.new buffer.new mem.new ≡ outcome two_rates mem.old (call channel (link_receive buffer.old)) }
{
    crossed(device::link_receive(mem, channel, buffer), length)
}

// Ends a connection.
#[unsafe(no_mangle)]
pub extern "C" fn trawl_link_end(mem: &mut [u8], channel: u32) -> u32
    ensures { gives result 0 [] mem.new ≡ outcome two_rates mem.old (call channel link_end) }
{
    codes::code_of(device::link_end(mem, channel))
}

// The record of the telegram that `bytes` are, over the start of a buffer: an opening one where `opening` is not 0, else one on a channel.
#[unsafe(no_mangle)]
pub extern "C" fn trawl_read_telegram(
    opening: u32,
    identifier: u32,
    bytes: &[u8],
    telegram: &mut [u8],
) -> u32
    ensures { gave result 0 telegram.new ≡ reading (read_any (not (eqb opening 0)) identifier bytes.now) telegram.old }
{
    codes::code_of(packing::read(opening != 0, identifier, bytes, telegram))
}

// The bytes of the telegram that a record says, over the start of a buffer; how many.
#[unsafe(no_mangle)]
pub extern "C" fn trawl_write_telegram(telegram: &[u8], buffer: &mut [u8], length: &mut u32) -> u32
    ensures { gave result length.new buffer.new ≡ writing telegram.now buffer.old }
{
    crossed(packing::write(telegram, buffer), length)
}

// A time byte in units of 0.1 ms. T1 = 0xFF means no time-out: its entry, 63,000, is for whoever uses T1 to pass over.
#[unsafe(no_mangle)]
pub extern "C" fn trawl_time(byte: u8) -> u32
    ensures { result ≡ time_of byte }
{
    times::time(byte)
}

// Plays a piece of a recording from the place that `at` says, on a memory and into a buffer; where it left off, and how many bytes it wrote.
#[unsafe(no_mangle)]
pub extern "C" fn trawl_replay(
    mem: &mut [u8],
    recording: &[u8],
    at: &mut usize,
    out: &mut [u8],
    length: &mut usize,
) -> u32
    ensures { leaves result at.new length.new mem.new out.new ≡ pieced mem.old recording.now at.old out.old }
{
    match recording::play_on(mem, recording, *at, out) {
        Ok(played) => {
            *at = played.at;
            *length = played.length;
            codes::STATUS_NOERROR
        }
        Err(refusal) => {
            *length = 0;
            u32::from(refusal)
        }
    }
}
