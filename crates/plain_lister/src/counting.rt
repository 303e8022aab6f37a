ghost use Rattle.std.specs.Prelude.{◌≡◌, ◌<◌, ◌≤◌, ◌↔◌, ℕ, IsTrue, IfOk, List, map, length, take, MatchOption};
ghost use Rattle.int_vectors.specs.Vectors.{Each};
ghost use Rattle.plain_lister.specs.Choices as choices;
ghost use Rattle.plain_lister.specs.Choices.{most_points, HavePairs, IsExcessOf, product};

use cayley::Problem;
use std::alloc::{AllocError, Global};

// The greatest number of choices that are tried.
const LIMIT: u64 = 1_000_000;

// The number of points of each support.
pub(crate) fn counts_of(alloc: Global, problem: &Problem) -> Result<Vec<u32>, AllocError>
    ensures { IfOk result (λ counts. counts.items ≡ map length problem.now.supports) }
{
    let mut counts = Vec::with_capacity(alloc, problem.dim())?;
    for i in 0..problem.dim() {
        counts.push(problem.count(i as u32 + 1))?;
    }
    Ok(counts)
}

// Whether each support has a pair.
pub(crate) fn have_pairs(counts: &[u32]) -> bool
    ensures { IsTrue result ↔ HavePairs counts.now }
{
    for count in counts {
        if *count < 2 {
            return false;
        }
    }
    true
}

// How many pairs `count` points have.
fn pairs_of(count: u32) -> u64
    requires { count ≤ most_points }
    ensures value { result ≡ choices.pairs_of count }
    ensures bound { result ≤ 1000000 }
{
    let count = u64::from(count);
    count * count.saturating_sub(1) / 2
}

// The number of choices of the first supports, for the least number of supports at which it exceeds
// the limit.
pub(crate) fn excess(counts: &[u32]) -> Option<u64>
    requires { Each counts.now (λ count. count ≤ most_points) }
    ensures { MatchOption result
        (product (map choices.pairs_of counts.now) ≤ 1000000)
        (λ number. IsExcessOf (map choices.pairs_of counts.now) number) }
{
    let mut choices = 1;
    for count in counts {
        choices *= pairs_of(*count);
        if choices > LIMIT {
            return Some(choices);
        }
    }
    None
}
