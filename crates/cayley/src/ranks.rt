ghost use Rattle.std.specs.Prelude.{◌≡◌, ◌≤◌, IfOk, length, map};
ghost use Rattle.std.specs.List.{All};
ghost use Rattle.cayley.specs.Problems.{numbered, point_at};
ghost use Rattle.cayley.specs.Ranks.{firsts_from};
ghost use Rattle.cayley.specs.Ranks as ranks;
ghost use Rattle.cayley.specs.Stored.{point};

use crate::points::Support;
use std::alloc::Global;
use wide_int::OutOfMemory;

// How many ranks the points of a support use up: all points but its two start corners have one.
fn ranks_of(support: &Support) -> u32
    requires within { support.now.file ≤ length support.now.points.items }
    requires few { length support.now.points.items ≤ 2000 }
    ensures value { result ≡ ranks.ranks_of support.now }
    ensures few { result ≤ 2000 }
{
    let count = support.points.len() as u32;
    count - (count - support.file).min(2)
}

/// The first rank of each support in version 2.
pub(crate) fn first_ranks(alloc: Global, supports: &[Support]) -> Result<Vec<u32>, OutOfMemory>
    requires few { length supports.now ≤ 16 }
    requires counts { All (λ s. (s.file ≤ length s.points.items) × (length s.points.items ≤ 2000)) supports.now }
    ensures { IfOk result (λ firsts. firsts.items ≡ firsts_from 1 supports.now) }
{
    let Ok(mut firsts) = Vec::with_capacity(alloc, supports.len()) else {
        return Err(OutOfMemory);
    };
    let mut next = 1u32;
    for s in supports {
        if let Err(_) = firsts.push(next) {
            return Err(OutOfMemory);
        }
        next += ranks_of(s);
    }
    Ok(firsts)
}

/// The rank at a position of support i in version 2, whose ranks begin with `first`.
pub(crate) fn rank_at(i: u32, support: &Support, first: u32, position: u32) -> u32
    requires support { (1 ≤ i) × (i ≤ 16) }
    requires files { support.now.file ≤ 1000 }
    requires first { first ≤ 40000 }
    requires least { 1 ≤ position }
    requires last { position ≤ length support.now.points.items }
    requires few { length support.now.points.items ≤ 2000 }
    ensures { result ≡ (point_at (numbered i support.now.file 1 first (map point support.now.points.items)) position).rank }
{
    let corner = support.file + 1;
    if position < corner {
        first + (position - 1)
    } else if position == corner || position == corner + i {
        0
    } else if position < corner + i {
        first + (position - 2)
    } else {
        first + (position - 3)
    }
}
