// What is measured in a TP2.0 connection: the microseconds of a time byte, the telegrams of a message and of a block.
#![tactic(auto)]

ghost use Rattle.std.specs.Prelude.{◌≡◌, List, ℕ, ◌≤◌, length};
ghost use Rattle.link.specs.Connection.{longest, micros as micros_of, telegrams as telegrams_of, block_of};

// The microseconds of a time byte, 6.3 s at most: the unit by its high two bits, times the count. (The table of times is built on the stack where it is
// looked into, and this is asked at every look at a memory.)
pub fn micros(b: u8) -> u32
    ensures { (result ≡ micros_of b) × (result ≤ 6300000) }
{
    let count = (b % 64) as u32;
    if b < 64 {
        return 100 * count;
    }
    if b < 128 {
        return 1_000 * count;
    }
    if b < 192 {
        return 10_000 * count;
    }
    100_000 * count
}

// The telegrams of a message of which so many bytes are left: 1 at least, 74 at most.
pub fn telegrams(n: u32) -> u32
    requires { n ≤ longest }
    ensures { ((rest : List ℕ) → length rest ≡ n → result ≡ telegrams_of rest) × (1 ≤ result) × (result ≤ 74) }
{
    if n == 0 {
        return 1;
    }
    (n + 6) / 7
}

// The telegrams of a block of such a message, by the block size.
pub fn block_of(size: u32, n: u32) -> u32
    requires { n ≤ longest }
    ensures { ((rest : List ℕ) → length rest ≡ n → result ≡ block_of size rest) × (result ≤ size) }
{
    let all = telegrams(n);
    if size < all {
        return size;
    }
    all
}
