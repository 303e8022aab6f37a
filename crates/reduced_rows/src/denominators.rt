ghost use Rattle.std.specs.Prelude.{◌≡◌, ◌<◌, ℤ, List, pos, ◌<ℤ◌, SomeIff, IfSome, MatchOption, IfOk, length, unsigned_abs};
ghost use Rattle.wide_int.specs.Whole.{FitsWhole};
ghost use Rattle.int_vectors.specs.Fits.{AllFit};
ghost use Rattle.int_vectors.specs.Vectors.{Each};
ghost use Rattle.reduced_rows.specs.Denominators.{HavePivots, lcm_from, FitsLcm, shares, FitsShares};

use int_vectors::IntVec;
use std::alloc::{AllocError, Global};
use wide_int::{lcm, product};

// The least common multiple of the pivots, formed in order from 1.
pub(crate) fn lcm_of_pivots(done: &[IntVec]) -> Option<i128>
    requires { HavePivots 0 done.now }
    ensures value { SomeIff result (FitsLcm 0 1 done.now) (pos (lcm_from 0 1 done.now)) }
    ensures fits { IfSome result (λ l. FitsWhole l) }
    ensures positive { IfSome result (λ l. pos 0 <ℤ l) }
{
    let mut l = 1;
    for (j, row) in done.iter().enumerate() {
        l = lcm(l, row.get(j))?;
    }
    Some(l)
}

// Minus each row's entry in column `k` times `l` over its pivot, with room for `more` further
// entries, unless a number of it doesn't fit.
pub(crate) fn shares_of(
    alloc: Global,
    done: &[IntVec],
    k: usize,
    l: i128,
    more: usize,
) -> Result<Option<Vec<i128>>, AllocError>
    requires pivots { HavePivots 0 done.now }
    requires lengths { Each done.now (λ row. k < length row) }
    requires positive { pos 0 <ℤ l }
    ensures { IfOk result (λ answer. MatchOption answer (¬ (FitsShares k 0 (unsigned_abs l) done.now))
        (λ made. FitsShares k 0 (unsigned_abs l) done.now × (made.items ≡ shares k 0 (unsigned_abs l) done.now) × AllFit made.items)) }
{
    let mut entries = Vec::with_capacity(alloc, done.len().saturating_add(more))?;
    for (j, row) in done.iter().enumerate() {
        match product(row.get(k), l / row.get(j)) {
            Some(share) => entries.push(-share)?,
            None => return Ok(None),
        }
    }
    Ok(Some(entries))
}
