ghost use Rattle.std.specs.Prelude.{◌≡◌, ℤ, List, ◌+ℤ◌, SomeIff, IfSome, MatchResult, length};
ghost use Rattle.wide_int.specs.Whole.{FitsWhole};
ghost use Rattle.int_vectors.specs.Fits.{AllFit, FitsDot};
ghost use Rattle.int_vectors.specs.Refusals.{IsSubFault};
ghost use Rattle.int_vectors.specs.Vectors as vectors;

use crate::faults::SubFault;
use std::alloc::Global;
use wide_int::{difference, product, sum};

/// `start` plus the sum of the products of the entries in the same place, of two lists of one length. `None` exactly where a
/// product, or a partial sum in order of places, doesn't fit.
pub fn dot_from(start: i128, a: &[i128], b: &[i128]) -> Option<i128>
    requires lengths { length a.now ≡ length b.now }
    requires fits { FitsWhole start }
    ensures value { SomeIff result (FitsDot start a.now b.now) (start +ℤ vectors.dot a.now b.now) }
    ensures fits { IfSome result (λ total. FitsWhole total) }
{
    let mut total = start;
    for (i, x) in a.iter().enumerate() {
        total = sum(total, product(*x, b[i])?)?;
    }
    Some(total)
}

// The differences of the entries in the same place.
pub(crate) fn differences(alloc: Global, a: &[i128], b: &[i128]) -> Result<Vec<i128>, SubFault>
    requires lengths { length a.now ≡ length b.now }
    ensures { MatchResult result (λ made. (made.items ≡ vectors.sub a.now b.now) × AllFit made.items) (IsSubFault a.now b.now) }
{
    let Ok(mut made) = Vec::with_capacity(alloc, a.len()) else {
        return Err(SubFault::OutOfMemory);
    };
    for (i, x) in a.iter().enumerate() {
        let Some(entry) = difference(*x, b[i]) else {
            return Err(SubFault::Overflow);
        };
        if let Err(_) = made.push(entry) {
            return Err(SubFault::OutOfMemory);
        }
    }
    Ok(made)
}
