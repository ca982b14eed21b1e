// Covers of a finite order, and its transitive reduction. A table has a mask for each of 64 places:
// the mask at p has q where p lies below q.
#![tactic(auto)]

ghost use Rattle.std.specs.Prelude.{◌≡◌, ℕ, ◌<◌, Decides};
ghost use Rattle.masks.specs.Masks.{has as has_bit};
ghost use Rattle.orders.specs.Reductions.{strictly, Nearest, Reduction};

use masks::{has, joined, lacking, single};
use std::array;

pub mod facts;

// The places other than `p` that `p` lies below.
fn others(under: &[u64; 64], p: usize) -> u64
    ensures { (q : ℕ) → has_bit result q ≡ strictly under.now p q }
{
    // A place that has a mask is below 64, so the cast cuts nothing off.
    under
        .get(p)
        .map_or(0, |mask| lacking(*mask, single(p as u8)))
}

// The places that cover `p`; none where `p` is above 63.
pub fn covers_of(under: &[u64; 64], p: usize) -> u64
    ensures { (q : ℕ) → Decides (has_bit result q) ((p < 64) × Nearest under.now p q) }
{
    let above = others(under, p);
    let mut further = 0;
    for z in (0..64).filter(|z| has(above, *z)) {
        further = joined(further, others(under, usize::from(z)));
    }
    lacking(above, further)
}

// The transitive reduction: the covers of each place.
pub fn reduce(under: &[u64; 64]) -> [u64; 64]
    ensures { Reduction under.now result }
{
    array::from_fn(
        |p|
            ensures { (q : ℕ) → Decides (has_bit result q) ((p < 64) × Nearest under.entry.now p q) }
        { covers_of(under, p) },
    )
}
