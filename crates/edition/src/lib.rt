// The edition of a recording: one that begins with event 0 and the number 2 takes the rates of now, any other the old ones.
#![tactic(auto)]

ghost use Rattle.std.specs.Prelude.{◌≡◌};
ghost use Rattle.edition.specs.Edition.{marked, start_of, mark_at};

// The event that says an edition, the one edition that it may say, and the bytes of both.
pub const EVENT: u8 = 0;

pub const NEW: u8 = 2;

pub const MARK: usize = 2;

// Does a recording begin with the mark of the new edition?
pub fn is_marked(recording: &[u8]) -> bool
    ensures { result ≡ marked recording.now }
{
    if recording.len() < MARK {
        return false;
    }
    (recording[0] == EVENT) & (recording[1] == NEW)
}

// Where the events of a recording begin.
pub fn start_of(recording: &[u8]) -> usize
    ensures { result ≡ start_of recording.now }
{
    if is_marked(recording) { MARK } else { 0 }
}

// Is the mark at this place of a recording?
pub fn is_mark(recording: &[u8], at: usize) -> bool
    ensures { result ≡ mark_at recording.now at }
{
    (at == 0) & is_marked(recording)
}
