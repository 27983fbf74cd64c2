// The bytes of one filter in a map of 2,048 bits. A map is eight bands of 32 bytes: a band for each value of the upper three bits of an identifier.
#![tactic(auto)]

ghost use Rattle.std.specs.Prelude.{◌≡◌, ◌≤◌, length};
ghost use Rattle.codec.specs.Code.{mark_of};
ghost use Rattle.derived.specs.Derived.{same_bytes};
ghost use Rattle.map_rule.specs.Map.{map_size};
ghost use Rattle.map_bands.specs.Bands.{band_size, band_byte, band_of, or_bytes, joined};
ghost use Rattle.map_bands.specs.Bands.{eight as eight_of};

pub const BANDS: usize = 8;

pub const BAND: usize = 32;

// A test as a bit.
fn mark(b: bool) -> u8
    ensures { (result ≡ mark_of b) × (result ≤ 1) }
{
    if b {
        return 1;
    }
    0
}

// Which of the eight values of three bits fit a mask and a pattern: a bit for each.
fn eight(m: u8, p: u8) -> u8
    ensures { result ≡ eight_of m p }
{
    mark((0 & m) == p)
        + 2 * mark((1 & m) == p)
        + 4 * mark((2 & m) == p)
        + 8 * mark((3 & m) == p)
        + 16 * mark((4 & m) == p)
        + 32 * mark((5 & m) == p)
        + 64 * mark((6 & m) == p)
        + 128 * mark((7 & m) == p)
}

// Byte l of a band: the eight bits, where its five bits fit.
fn band_byte(m: u8, p: u8, inner: u8, l: u8) -> u8
    ensures { result ≡ band_byte m p inner l }
{
    if (l & m) == p {
        return inner;
    }
    0
}

// The band of a mask and a pattern of an identifier's low byte.
fn band_of(mask: u8, pattern: u8) -> [u8; BAND]
    ensures { result ≡ band_of mask pattern }
{
    let inner = eight(mask % 8, pattern % 8);
    let mut out = [0u8; BAND];
    for l in 0..BAND {
        out[l] = band_byte(mask / 8, pattern / 8, inner, l as u8);
    }
    out
}

// A band put into another by OR.
fn put(d: &mut [u8], band: &[u8])
    requires { (length d.old ≡ band_size) × (length band.now ≡ band_size) }
    ensures { d.new ≡ or_bytes d.old band.now }
{
    for l in 0..BAND {
        d[l] = d[l] | band[l];
    }
}

// A map with the bytes of one filter more, by the last two bytes of its mask and pattern: the same band into each of the eight whose upper bits fit.
pub fn join(map: &mut [u8], hm: u8, hp: u8, lm: u8, lp: u8)
    requires { length map.old ≡ map_size }
    ensures { map.new ≡ joined map.old hm hp lm lp }
{
    let band = band_of(lm, lp);
    for h in 0..BANDS {
        if (h as u8 & hm) == hp {
            let from = h * BAND;
            let to = from + BAND;
            put(&mut map[from..to], &band);
        }
    }
}

// Are two rows of bytes the same? No exit inside the loop, so that it runs on whole vectors.
pub fn same(a: &[u8], b: &[u8]) -> bool
    requires { length a.now ≡ length b.now }
    ensures { result ≡ same_bytes a.now b.now }
{
    let mut d = 0u8;
    for i in 0..a.len() {
        d = d | (a[i] ^ b[i]);
    }
    d == 0
}
