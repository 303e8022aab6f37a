ghost use Rattle.std.specs.Prelude.{◌≡◌, ◌≤◌, IfOk, map};
ghost use Rattle.cayley.specs.Paths.{default_start, default_starts, default_starts_from};

use crate::lists::push;
use std::alloc::Global;
use wide_int::OutOfMemory;

// The start height of the corner of direction k in support i; both count from 1.
fn default_start(i: usize, k: usize) -> i64
    requires support { i ≤ 16 }
    requires direction { k ≤ 16 }
    ensures { result ≡ default_start i k }
{
    let mixed = 37 * i * i + 11 * k * k * k + 53 * i * k;
    100 + (mixed % 509) as i64
}

// The start heights of support i, which counts from 1.
fn default_row(alloc: Global, dim: usize, i: usize) -> Result<Vec<i64>, OutOfMemory>
    requires support { i ≤ 16 }
    requires dimension { dim ≤ 16 }
    ensures { IfOk result (λ made. made.items ≡ default_starts_from i 1 dim) }
{
    let mut made = Vec::new(alloc);
    for place in 0..dim {
        let k = place + 1;
        if k != i {
            push(&mut made, default_start(i, k))?;
        }
    }
    Ok(made)
}

/// The start heights that a file has in dimension `dim` where it gives none: for each support i a
/// list of `dim - 1` numbers, one for each direction k but i. That of support i and direction k is
/// `100 + ((37 i i + 11 k k k + 53 i k) mod 509)`.
pub fn default_starts(alloc: Global, dim: usize) -> Result<Vec<Vec<i64>>, OutOfMemory>
    requires least { 1 ≤ dim }
    requires greatest { dim ≤ 16 }
    ensures { IfOk result (λ made. map (λ s. s.items) made.items ≡ default_starts dim 1 dim) }
{
    let mut made = Vec::new(alloc);
    for place in 0..dim {
        let row = default_row(alloc, dim, place + 1)?;
        push(&mut made, row)?;
    }
    Ok(made)
}
