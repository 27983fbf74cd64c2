// What the shift report looks at before it counts an event: the line of a channel, and what the region of a raw channel holds.
#![tactic(auto)]

ghost use Rattle.std.specs.Prelude.{◌≡◌, ◌≤◌, T, length};
ghost use Rattle.machine.specs.Limits.{most_to_read};
ghost use Rattle.layout.specs.Sizes.{region_size};
ghost use Rattle.layout.specs.Memory.{region};
ghost use Rattle.shift.specs.Numbers.{held_in};
ghost use Rattle.shift_looks.specs.Looks.{would_echo, LineOf};

use places::LINES;

// The line of the raw channel of a number; the number of lines where it is the number of none.
pub fn line_of(channel: u32) -> usize
    ensures { LineOf channel result }
{
    if channel < 1 {
        return LINES;
    }
    if channel > LINES as u32 {
        return LINES;
    }
    channel as usize - 1
}

// How many records are held for reading; none on a closed channel.
pub fn held(r: &[u8]) -> u32
    requires { (length r.now ≡ region_size) × T (region.valid r.now) }
    ensures { (result ≡ held_in (region.get r.now)) × (result ≤ most_to_read) }
{
    if r[0] == 0 {
        return 0;
    }
    integers::wide(r[places::RECEIVING])
}

// Would a sent echo? A record is in flight, and loopback is on.
pub fn would_echo(r: &[u8]) -> bool
    requires { (length r.now ≡ region_size) × T (region.valid r.now) }
    ensures { result ≡ would_echo (region.get r.now) }
{
    if r[0] == 0 {
        return false;
    }
    if r[places::FLIGHT] == 0 {
        return false;
    }
    r[places::LOOPBACK] != 0
}
