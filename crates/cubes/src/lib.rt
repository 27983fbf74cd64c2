// Is some number of a cube in none of ten others? A cube is a mask and a pattern, and stands for the numbers x with x AND mask = pattern.
#![tactic(auto)]

ghost use Rattle.std.specs.Prelude.{◌≡◌, ℕ, ◌<◌, length};
ghost use Rattle.std.specs.Int.Bits.{bit_and};
ghost use Rattle.cubes.specs.Cube.{Answered, SingleBit, Surveyed};

// The bits that open cubes want 1, and those that they want 0.
#[derive(Clone, Copy)]
struct Wanted {
    ones: u64,
    zeros: u64,
}

// The lowest bit of a number.
fn lowest(x: u64) -> u64
    requires { 0 < x }
    ensures { SingleBit x result }
{
    1u64 << u64::trailing_zeros(x)
}

// One look at the ten cubes: what the open ones want, none where one of the ten holds all of (cm, cp).
fn survey(ms: &[u64; 10], ps: &[u64; 10], cm: u64, cp: u64) -> Option<Wanted>
    requires { (length ms.now ≡ 10) × (length ps.now ≡ 10) }
    ensures { Surveyed ms.now ps.now cm cp result }
{
    let mut ones = 0u64;
    let mut zeros = 0u64;
    for i in 0..10 {
        let m = ms[i];
        let p = ps[i];
        if ((p & cm) == (cp & m)) & ((p & m) == p) {
            let more = m ^ (m & cm);
            if more == 0 {
                return None;
            }
            ones = ones | (p & more);
            zeros = zeros | (more ^ (more & p));
        }
    }
    Some(Wanted { ones, zeros })
}

// Is some number of the cube (cm, cp) in none of the ten? Where no bit is wanted both ways by those that are open, one that differs from all of them
// is there; else the cube is split at such a bit, and each half has at least one open cube less.
pub fn uncovered(ms: &[u64; 10], ps: &[u64; 10], cm: u64, cp: u64) -> bool
    requires { (length ms.now ≡ 10) × (length ps.now ≡ 10) × (bit_and cp cm ≡ cp) }
    ensures { Answered ms.now ps.now cm cp result }
{
    let Some(wanted) = survey(ms, ps, cm, cp) else {
        return false;
    };
    let mixed = wanted.ones & wanted.zeros;
    if mixed == 0 {
        return true;
    }
    let t = lowest(mixed);
    if uncovered(ms, ps, cm | t, cp | t) {
        return true;
    }
    uncovered(ms, ps, cm | t, cp)
}
