// Answers in bytes, for callers that know that there is room: a number, a code and a number, a code and a count, from a place on.
#![tactic(auto)]

ghost use Rattle.std.specs.Prelude.{◌≡◌, ◌+◌, ◌≤◌, length};
ghost use Rattle.codes.specs.Code.{code_of, value_of};
ghost use Rattle.number.specs.Number.{bytes_of};
ghost use Rattle.number.specs.Place.{Written};
ghost use Rattle.answers.specs.Output.{numbered, counted};
ghost use Rattle.answers.specs.Put.{Put};

use codes::{Moved, Refusal};

// How many bytes a number takes.
pub fn number_size(value: u32) -> usize
    ensures { result ≡ length (bytes_of value) }
{
    if value < 128 {
        return 1;
    }
    if value < 16384 {
        return 2;
    }
    if value < 2097152 {
        return 3;
    }
    if value < 268435456 {
        return 4;
    }
    5
}

// Writes a number from a place on, in as many bytes as it takes, and gives the place after them.
pub fn put_number(out: &mut [u8], at: usize, value: u32) -> usize
    requires { at + length (bytes_of value) ≤ length out.old }
    ensures { Written out.old at value result out.new }
{
    let mut place = at;
    let mut rest = value;
    // the number is divided until nothing is left: no index is counted
    while rest > 127 {
        out[place] = (128 + rest % 128) as u8;
        rest /= 128;
        place += 1;
    }
    out[place] = rest as u8;
    place + 1
}

// Writes the code of an answer from a place on and, where it is no refusal, its number; gives the place after them.
pub fn put_done(out: &mut [u8], at: usize, answer: Result<u32, Refusal>) -> usize
    requires { at + 10 ≤ length out.old }
    ensures { Put out.old at (numbered (code_of answer) (value_of answer)) result out.new }
{
    let next = put_number(out, at, codes::code_of(answer));
    let Ok(value) = answer else {
        return next;
    };
    put_number(out, next, value)
}

// Writes why a call moved no more records from a place on, as its code, and how many it moved; gives the place after them.
pub fn put_count(out: &mut [u8], at: usize, moved: Moved) -> usize
    requires { at + 10 ≤ length out.old }
    ensures { Put out.old at (counted (code_of moved.end) moved.count) result out.new }
{
    let next = put_number(out, at, codes::code_of(moved.end));
    put_number(out, next, moved.count)
}
