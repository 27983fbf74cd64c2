// The bytes of a message in a connection's part: how many, a number, then they, then zeros.
#![tactic(auto)]

ghost use Rattle.std.specs.Prelude.{◌≡◌, [], ◌++◌, ◌+◌, ◌≤◌, T, length, drop};
ghost use Rattle.codec.specs.Code.{text};
ghost use Rattle.link.specs.Connection.{longest};
ghost use Rattle.link_layout.specs.Sizes.{text_size};

use integers::{put_word, word_at};
use link_places::TEXT;
use octets::{copy, move_down, zero};
use places::NUMBER;

// How many are held.
pub fn count(s: &[u8]) -> u32
    requires { (length s.now ≡ text_size) × T ((text longest).valid s.now) }
    ensures { (result ≡ length ((text longest).get s.now)) × (result ≤ longest) }
{
    word_at(s, 0)
}

// The first k go: the others move to the front, zeros behind them.
pub fn drop_bytes(s: &mut [u8], k: usize)
    requires { (length s.old ≡ text_size) × T ((text longest).valid s.old) × (k ≤ length ((text longest).get s.old)) }
    ensures { s.new ≡ (text longest).put (drop k ((text longest).get s.old)) }
{
    let held = count(s) as usize;
    let end = NUMBER + held;
    move_down(&mut s[NUMBER..end], k);
    put_word(&mut s[0..NUMBER], (held - k) as u32);
}

// More behind those that are held.
pub fn append(s: &mut [u8], bytes: &[u8])
    requires { (length s.old ≡ text_size) × T ((text longest).valid s.old) × (length ((text longest).get s.old) + length bytes.now ≤ longest) }
    ensures { s.new ≡ (text longest).put ((text longest).get s.old ++ bytes.now) }
{
    let held = count(s) as usize;
    let from = NUMBER + held;
    let end = from + bytes.len();
    copy(&mut s[from..end], bytes);
    put_word(&mut s[0..NUMBER], (held + bytes.len()) as u32);
}

// These, whatever was there.
pub fn put(s: &mut [u8], bytes: &[u8])
    requires { (length s.old ≡ text_size) × (length bytes.now ≤ longest) }
    ensures { s.new ≡ (text longest).put bytes.now }
{
    let end = NUMBER + bytes.len();
    put_word(&mut s[0..NUMBER], bytes.len() as u32);
    copy(&mut s[NUMBER..end], bytes);
    zero(&mut s[end..TEXT]);
}

// None.
pub fn clear(s: &mut [u8])
    requires { length s.old ≡ text_size }
    ensures { s.new ≡ (text longest).put [] }
{
    zero(s);
}
