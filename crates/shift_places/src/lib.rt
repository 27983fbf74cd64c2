// Where each number of the shift report stands, for code: each place said once. That they are those of the definitions is the promise of `numbers`.
#![tactic(auto)]

ghost use Rattle.std.specs.Prelude.{◌≡◌};
ghost use Rattle.shift_places.specs.Places.{named};

// Among the eleven of a channel, in the request's order.
pub const OFFERED: usize = 0;

pub const WIDTH: usize = 1;

pub const UNMATCHED: usize = 2;

pub const BLOCKED: usize = 3;

pub const PASSED: usize = 4;

pub const ECHOED: usize = 5;

pub const LOST: usize = 6;

pub const READ: usize = 7;

pub const CLEARED: usize = 8;

pub const DROPPED: usize = 9;

pub const HELD: usize = 10;
// A channel's numbers, and those of all four.
pub const CHANNEL: usize = 11;

pub const REPORT: usize = places::LINES * CHANNEL;

// Every number above, in order: those of the definitions.
pub fn numbers() -> [usize; 13]
    ensures { result ≡ named }
{
    [
        OFFERED, WIDTH, UNMATCHED, BLOCKED, PASSED, ECHOED, LOST, READ, CLEARED, DROPPED, HELD,
        CHANNEL, REPORT,
    ]
}
