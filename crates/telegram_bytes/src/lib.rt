// A telegram's bytes over the start of a buffer, as the writer leaves them; a refusal leaves the buffer as it was.
#![tactic(auto)]

ghost use Rattle.std.specs.Prelude.{◌≡◌, true, List, [], ◌∷◌, ◌++◌, ℕ, ◌+◌, ◌≤◌, length};
ghost use Rattle.telegram_types.specs.Face.{wrote, refusal, over, done, written_if};

use codes::Refusal;

// Copies the bytes to the buffer's start; all after them stays.
pub fn put(bytes: &[u8], buf: &mut [u8])
    requires { length bytes.now ≤ length buf.old }
    ensures { buf.new ≡ over bytes.now buf.old }
{
    // eight bytes at most: a call of the library's copy would cost more than they do
    for i in 0..bytes.len() {
        buf[i] = bytes[i];
    }
}

// Fields that the tables don't allow: 0x0A.
pub fn refused() -> Result<usize, Refusal>
    ensures { (buffer : List ℕ) → wrote result buffer ≡ refusal 0x0A buffer }
{
    Err(Refusal::InvalidMsg)
}

// Writes the bytes where the fields fit.
pub fn all(fit: bool, bytes: &[u8], buf: &mut [u8]) -> Result<usize, Refusal>
    requires { length bytes.now ≤ length buf.old }
    ensures { wrote result buf.new ≡ written_if fit bytes.now buf.old }
{
    if fit {
        put(bytes, buf);
        return Ok(bytes.len());
    }
    refused()
}

// Writes a head and the bytes that it carries.
pub fn both(head: &[u8], rest: &[u8], buf: &mut [u8]) -> Result<usize, Refusal>
    requires { length head.now + length rest.now ≤ length buf.old }
    ensures { wrote result buf.new ≡ done (head.now ++ rest.now) buf.old }
{
    let n = head.len();
    put(head, buf);
    put(rest, &mut buf[n..]);
    Ok(n + rest.len())
}

// One byte.
pub fn one(first: u8, buf: &mut [u8]) -> Result<usize, Refusal>
    requires { 8 ≤ length buf.old }
    ensures { wrote result buf.new ≡ written_if true (first ∷ []) buf.old }
{
    let bytes = [first];
    all(true, &bytes, buf)
}
