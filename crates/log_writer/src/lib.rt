// Writes a line of a candump log, for callers that know that there is room: each function gives the place after what it wrote.
#![tactic(auto)]

ghost use Rattle.std.specs.Prelude.{◌≡◌, List, [], ◌∷◌, ◌++◌, ◌+◌, ◌≤◌, ◌<◌, length};
ghost use Rattle.machine.specs.Limits.{last_line};
ghost use Rattle.text.specs.Text.{digit, fixed, decimal};
ghost use Rattle.answers.specs.Put.{Put};
ghost use Rattle.candump.specs.Line.{id_digits, data_text, frame_text, line_text};
ghost use Rattle.candump.specs.Log.{newline};
ghost use Rattle.log_writer.specs.Pieces.{logged_as, time_text, name_part};

use candump::{BLANK, CLOSES, HASH, NEWLINE, NOUGHT, OPENS, POINT, SECOND, SIXTEEN, TEN};

// The digit of a value below 16.
fn digit_of(value: u64) -> u8
    requires { value < 16 }
    ensures { result ≡ digit value }
{
    if value < 10 {
        return NOUGHT + value as u8;
    }
    55 + value as u8
}

// A byte.
fn put_byte(out: &mut [u8], at: usize, byte: u8) -> usize
    requires { at < length out.old }
    ensures { Put out.old at (byte ∷ []) result out.new }
{
    out[at] = byte;
    at + 1
}

// So many digits of a number, from the last to the first.
fn put_fixed(out: &mut [u8], at: usize, base: u64, count: usize, value: u64) -> usize
    requires { (1 ≤ base) × (base ≤ 16) × (at + count ≤ length out.old) }
    ensures { Put out.old at (fixed base count value) result out.new }
{
    let mut rest = value;
    for k in (0..count).rev() {
        out[at + k] = digit_of(rest % base);
        rest /= base;
    }
    at + count
}

// How many digits a number has in decimal.
fn digits_of(value: u64) -> usize
    ensures { result ≡ length (decimal value) }
{
    let mut n = 1;
    let mut rest = value;
    // the number is divided until a digit is left: no index is counted
    while rest >= TEN {
        rest /= TEN;
        n += 1;
    }
    n
}

// A time in its parentheses.
fn put_time(out: &mut [u8], at: usize, time: u64) -> usize
    requires { at + length (time_text time) ≤ length out.old }
    ensures { Put out.old at (time_text time) result out.new }
{
    let seconds = time / SECOND;
    let opened = put_byte(out, at, OPENS);
    let whole = put_fixed(out, opened, TEN, digits_of(seconds), seconds);
    let pointed = put_byte(out, whole, POINT);
    let parts = put_fixed(out, pointed, TEN, candump::DECIMALS, time % SECOND);
    put_byte(out, parts, CLOSES)
}

// The name of a line between two blanks.
fn put_name(out: &mut [u8], at: usize, line: u32) -> usize
    requires { (line ≤ last_line) × (at + length (name_part line) ≤ length out.old) }
    ensures { Put out.old at (name_part line) result out.new }
{
    let a = put_byte(out, at, BLANK);
    let b = put_byte(out, a, 99);
    let c = put_byte(out, b, 97);
    let d = put_byte(out, c, 110);
    let e = put_byte(out, d, NOUGHT + line as u8);
    put_byte(out, e, BLANK)
}

// Data bytes of two digits.
fn put_data(out: &mut [u8], at: usize, bytes: &[u8]) -> usize
    requires { at + length (data_text bytes.now) ≤ length out.old }
    ensures { Put out.old at (data_text bytes.now) result out.new }
{
    let mut place = at;
    for byte in bytes {
        place = put_fixed(out, place, SIXTEEN, candump::BYTE_DIGITS, *byte as u64);
    }
    place
}

// How many digits an identifier has.
fn id_digits(wide: bool) -> usize
    ensures { result ≡ id_digits wide }
{
    if wide {
        return candump::WIDE_DIGITS;
    }
    candump::NARROW_DIGITS
}

// An identifier and data.
fn put_frame(out: &mut [u8], at: usize, wide: bool, id: u32, bytes: &[u8]) -> usize
    requires { at + length (fixed 16 (id_digits wide) id ++ (0x23 ∷ data_text bytes.now)) ≤ length out.old }
    ensures { Put out.old at (fixed 16 (id_digits wide) id ++ (0x23 ∷ data_text bytes.now)) result out.new }
{
    let named = put_fixed(out, at, SIXTEEN, id_digits(wide), id as u64);
    let marked = put_byte(out, named, HASH);
    put_data(out, marked, bytes)
}

// A line with its end.
pub fn put_line(
    out: &mut [u8],
    at: usize,
    time: u64,
    line: u32,
    wide: bool,
    id: u32,
    bytes: &[u8],
) -> usize
    requires { (line ≤ last_line) × (at + length (line_text (logged_as time line wide id bytes.now) ++ (newline ∷ [])) ≤ length out.old) }
    ensures { Put out.old at (line_text (logged_as time line wide id bytes.now) ++ (newline ∷ [])) result out.new }
{
    let timed = put_time(out, at, time);
    let named = put_name(out, timed, line);
    let carried = put_frame(out, named, wide, id, bytes);
    put_byte(out, carried, NEWLINE)
}
