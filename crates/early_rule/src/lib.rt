// Decided on the identifier alone, where the data of ten filters are cubes: what the verdict is for every data.
#![tactic(auto)]

ghost use Rattle.std.specs.Prelude.{◌≡◌, ℕ, ◌≤◌, ◌<◌, Bool, List, length, get_or};
ghost use Rattle.std.specs.Int.Bits.{bit_and};
ghost use Rattle.machine.specs.Limits.{most_places};
ghost use Rattle.machine.specs.Filter.{Slots, Filter};
ghost use Rattle.machine.specs.Early.{early};
ghost use Rattle.decision.specs.Number.{said};
ghost use Rattle.layout.specs.Sizes.{masks_in};
ghost use Rattle.early_rule.specs.Words.{mask_word, pattern_word, Conds, Passing, SomePasses, all_pass};

use decision::Decision;
use filterwalk::BLOCK;
use places::{NUMBER, PLACES, SIZES_IN};

// The bytes of an identifier, the first of a filter's.
const ID_SIZE: u8 = NUMBER as u8;

// The numbers x with x AND mask = pattern.
#[derive(Clone, Copy)]
pub struct Cube {
    pub mask: u64,
    pub pattern: u64,
}

// A cube, or the one that holds no number.
pub fn chosen(take: bool, mask: u64, pattern: u64) -> Cube
    ensures { (result.mask ≡ mask_word take mask) × (result.pattern ≡ pattern_word take pattern) }
{
    if take {
        return Cube {
            mask: mask,
            pattern: pattern,
        };
    }
    Cube {
        mask: 0,
        pattern: 1,
    }
}

// Does some frame pass by pass filter f? Some data of its cube is in no cube of a block filter that is not longer.
fn passing(heads: &[u8], ms: &[u64], ps: &[u64], f: usize) -> bool
    requires { (masks_in ≤ length heads.now) × (length ms.now ≡ most_places) × (length ps.now ≡ most_places) × (f < most_places) × (bit_and (get_or ps.now f 0) (get_or ms.now f 0) ≡ get_or ps.now f 0) }
    ensures { Passing heads.now ms.now ps.now f result }
{
    let mut bm = [0u64; PLACES];
    let mut bp = [1u64; PLACES];
    let long = heads[SIZES_IN + f];
    for g in 0..PLACES {
        let size = heads[SIZES_IN + g];
        let bars = (heads[g] == BLOCK) & ((size <= ID_SIZE) | (size <= long));
        let one = chosen(bars, ms[g], ps[g]);
        bm[g] = one.mask;
        bp[g] = one.pattern;
    }
    cubes::uncovered(&bm, &bp, ms[f], ps[f])
}

// Does some frame pass? By some pass filter that can match.
fn some_passes(heads: &[u8], ms: &[u64], ps: &[u64]) -> bool
    requires { (masks_in ≤ length heads.now) × (length ms.now ≡ most_places) × (length ps.now ≡ most_places) }
    ensures { SomePasses heads.now ms.now ps.now result }
{
    for f in 0..PLACES {
        let m = ms[f];
        let p = ps[f];
        if (heads[f] != BLOCK) & ((p & m) == p) {
            if passing(heads, ms, ps, f) {
                return true;
            }
        }
    }
    false
}

// Do all frames pass? A pass filter looks at no data, and no block filter can match.
fn all_pass(heads: &[u8], ms: &[u64], ps: &[u64]) -> bool
    requires { (masks_in ≤ length heads.now) × (length ms.now ≡ most_places) × (length ps.now ≡ most_places) }
    ensures { result ≡ all_pass heads.now ms.now ps.now }
{
    let mut free = false;
    let mut able = false;
    for f in 0..PLACES {
        let kind = heads[f];
        let size = heads[SIZES_IN + f];
        let m = ms[f];
        let p = ps[f];
        able = able | ((kind == BLOCK) & ((p & m) == p));
        free = free | ((kind != BLOCK) & (size <= ID_SIZE) & (p == 0));
    }
    free & !able
}

// The answer of any ten filters whose data are these cubes.
pub fn decide(heads: &[u8], ms: &[u64], ps: &[u64]) -> Decision
    requires { (masks_in ≤ length heads.now) × (length ms.now ≡ most_places) × (length ps.now ≡ most_places) }
    ensures { (fs : Slots Filter) (wide : Bool) (id : List ℕ) → Conds fs wide id heads.now ms.now ps.now → said result ≡ early fs wide id }
{
    if all_pass(heads, ms, ps) {
        return Decision::Passes;
    }
    if some_passes(heads, ms, ps) {
        return Decision::MustSee;
    }
    Decision::Dropped
}
