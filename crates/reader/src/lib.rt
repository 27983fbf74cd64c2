// The reader struct: a recording and a place in it. It gives the parts of the recording one behind the other, and few thin functions say where it is.
#![tactic(auto)]

ghost use Rattle.std.specs.Prelude.{◌≡◌};
ghost use Rattle.number.specs.Place.{number_at};
ghost use Rattle.number.specs.Reads.{number};
ghost use Rattle.reader.specs.Reader.{reader_at, moved_to, at_end};
ghost use Rattle.reader.specs.Cursor.{read_by, ends};

use number::Number;

// A recording and a place in it. What it reads it gives, and moves on; where there is nothing to give it stays as it is.
#[derive(Clone, Copy)]
pub struct Reader<'a> {
    pub recording: &'a [u8],
    pub at: usize,
}

impl<'a> Reader<'a> {
    // A reader of a recording, at a place.
    pub fn new(recording: &'a [u8], at: usize) -> Reader<'a>
        ensures { result ≡ reader_at recording.entry at }
    {
        Reader { recording, at }
    }

    // The number at the reader's place.
    pub fn next_number(&mut self) -> Option<u32>
        ensures { (result, self.new) ≡ read_by number self.old }
    {
        let found = number::number_at(self.recording, self.at)?;
        self.at = found.next;
        Some(found.value)
    }

    // Where so many raw bytes at the reader's place begin and end.
    pub fn next_bytes(&mut self, size: usize) -> Option<(usize, usize)>
        ensures { (result, self.new) ≡ read_by (ends size) self.old }
    {
        let from = self.at;
        let end = from.checked_add(size)?;
        if end > self.recording.len() {
            return None;
        }
        self.at = end;
        Some((from, end))
    }

    // The reader at another place of its recording.
    pub fn moved_to(self, at: usize) -> Reader<'a>
        ensures { result ≡ moved_to self.entry at }
    {
        Reader { at, ..self }
    }

    // Whether the reader is at its recording's end.
    pub fn at_end(self) -> bool
        ensures { result ≡ at_end self.entry }
    {
        self.at >= self.recording.len()
    }
}

// The number at a place of a recording, and the place after it, for callers that hold no reader.
pub fn read_number(recording: &[u8], at: usize) -> Option<Number>
    ensures { result ≡ number_at recording.now at }
{
    number::number_at(recording, at)
}
