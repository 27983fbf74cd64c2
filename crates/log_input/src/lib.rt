// How much of a log is read: all of it, or, where it is longer than the room for one, the lines that are whole in that room.
#![tactic(auto)]

ghost use Rattle.std.specs.Prelude.{◌≡◌, ◌≤◌, length};
ghost use Rattle.log_input.specs.Cut.{longest_log, whole_of, cut_of};

use candump::NEWLINE;

// The room for a log. A log without needless zeros that an import takes whole has at most 229,361 bytes.
pub const LONGEST_LOG: usize = 262144;

// One byte more: it tells a log that is longer.
pub const READ: usize = LONGEST_LOG + 1;

// How many bytes of a log are read, and the number of the first line that is not, if one isn't.
#[derive(Clone, Copy)]
pub struct Cut {
    pub end: usize,
    pub line: Option<usize>,
}

// The end of the last line that is whole, and the number of the line behind it.
fn whole_lines(log: &[u8]) -> Cut
    requires { length log.now ≤ longest_log }
    ensures { result ≡ whole_of log.now }
{
    let mut end = 0;
    let mut line = 1;
    for i in 0..log.len() {
        if log[i] == NEWLINE {
            end = i + 1;
            line += 1;
        }
    }
    Cut {
        end,
        line: Some(line),
    }
}

// What of a log is read.
pub fn part_read(log: &[u8]) -> Cut
    ensures { result ≡ cut_of log.now }
{
    if log.len() <= LONGEST_LOG {
        return Cut {
            end: log.len(),
            line: None,
        };
    }
    whole_lines(&log[..LONGEST_LOG])
}
