// Where the region of a channel is, in a memory of the whole box that is known to be valid, and whether it is a listener's.
#![tactic(auto)]

ghost use Rattle.std.specs.Prelude.{◌+◌, ◌≤◌, ◌-◌, ◌≡◌, T, length};
ghost use borrow.Rule.Slice.PartMut.{mid_of};
ghost use Rattle.codec.specs.Word.{word_at};
ghost use Rattle.machine.specs.Channel.{listens as listens_by};
ghost use Rattle.layout.specs.Sizes.{region_size, flags_at};
ghost use Rattle.whole.specs.Device.{channels};
ghost use Rattle.memory.specs.Memory.{valid};
ghost use Rattle.memory.specs.Runs.{place_at};
ghost use Rattle.seats.specs.Seated.{Seated, RawSeated};

use places::LINES;

// Where the region of the channel of a number begins: the raw ones first, then the ISO 15765 ones.
fn begins(number: usize) -> usize
    requires { (1 ≤ number) × (number ≤ channels) }
    ensures { result ≡ place_at (number - 1) }
{
    if number > LINES {
        return box_places::ISO_REGIONS + (number - 1 - LINES) * iso_places::REGION;
    }
    places::REGIONS + (number - 1) * places::REGION
}

// Where the region of an open channel begins, by the kind of channel.
#[derive(Clone, Copy)]
pub enum Seat {
    Raw(usize),
    Iso(usize),
}

// The seat of the channel of a number; none where no channel of that number is open.
pub fn seat_of(mem: &[u8], channel: u32) -> Option<Seat>
    requires { T (valid mem.now) }
    ensures { Seated mem.now channel result }
{
    let number = channel as usize;
    if number < 1 {
        return None;
    }
    if number > box_places::CHANNELS {
        return None;
    }
    let base = begins(number);
    if mem[base] == 0 {
        return None;
    }
    if base < box_places::ISO_REGIONS {
        return Some(Seat::Raw(base));
    }
    Some(Seat::Iso(base))
}

// The same for a call that takes the number of a raw channel: none where no raw channel of that number is open.
pub fn raw_seat_of(mem: &[u8], channel: u32) -> Option<usize>
    requires { T (valid mem.now) }
    ensures { RawSeated mem.now channel result }
{
    match seat_of(mem, channel)? {
        Seat::Raw(at) => Some(at),
        Seat::Iso(_) => None,
    }
}

// Is the raw channel whose region begins at a place a listener? What would speak out is refused there.
pub fn listens(mem: &[u8], at: usize) -> bool
    requires { at + region_size ≤ length mem.now }
    ensures { result ≡ listens_by (word_at flags_at (mid_of at (at + region_size - at) mem.now)) }
{
    can::listens(integers::word_at(&mem[at..at + places::REGION], places::FLAGS))
}
