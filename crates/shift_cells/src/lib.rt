// The 44 numbers of a shift report, eleven a channel: more is added to one of them.
#![tactic(auto)]

ghost use Rattle.std.specs.Prelude.{◌≡◌, ◌+◌, ◌*◌, ◌<◌, length, get_or};
ghost use Rattle.machine.specs.Limits.{lines};
ghost use Rattle.shift_places.specs.Places.{of_channel, of_report};
ghost use Rattle.shift_cells.specs.Sums.{Added};

use shift_places::CHANNEL;

// Adds to one number of the channel of a line.
pub fn add(numbers: &mut [u32], line: usize, which: usize, by: u32)
    requires { (length numbers.old ≡ of_report) × (line < lines) × (which < of_channel) × (get_or numbers.old (line * of_channel + which) 0 + by < 4294967296) }
    ensures { Added numbers.old numbers.new line which by }
{
    let at = line * CHANNEL + which;
    numbers[at] = numbers[at] + by;
}
