ghost use Rattle.std.specs.Prelude.{◌≡◌, ◌<◌, ◌≤◌, ◌↔◌, ◌≤ℤ◌, pos, IfOk, IsTrue, length};
ghost use Rattle.int_vectors.specs.Vectors.{Each, add, sub, at, at_place};
ghost use Rattle.cayley.specs.Paths.{sum_of};
ghost use Rattle.cayley.specs.Valid.{IsCoordinate, IsCornerCoordinate};

use crate::lists::push;
use int_vectors::IntVec;
use std::alloc::Global;
use wide_int::OutOfMemory;

// The sum of the differences x - m.
pub(crate) fn sum_above(x: &IntVec, m: &IntVec) -> i128
    requires long { length x.now ≤ 16 }
    requires lengths { length x.now ≡ length m.now }
    requires x_small { Each x.now IsCoordinate }
    requires m_small { Each m.now IsCoordinate }
    ensures value { result ≡ sum_of (sub x.now m.now) }
    ensures most { result ≤ℤ pos 32000000 }
{
    let mut total = 0;
    for k in 0..x.len() {
        total += x.get(k) - m.get(k);
    }
    total
}

// The entry at place j of m + d e_k; places count from 0.
fn moved_entry(m: &IntVec, k: usize, d: i128, j: usize) -> i128
    requires place { k < length m.now }
    requires entry { j < length m.now }
    requires small { Each m.now IsCoordinate }
    requires least { pos 0 ≤ℤ d }
    requires greatest { d ≤ℤ pos 32000000 }
    ensures value { result ≡ at (add m.now (at_place k d)) j }
    ensures small { IsCornerCoordinate result }
{
    if j == k { m.get(j) + d } else { m.get(j) }
}

// The vector m + d e_k; k counts from 0.
pub(crate) fn moved(alloc: Global, m: &IntVec, k: usize, d: i128) -> Result<IntVec, OutOfMemory>
    requires place { k < length m.now }
    requires small { Each m.now IsCoordinate }
    requires least { pos 0 ≤ℤ d }
    requires greatest { d ≤ℤ pos 32000000 }
    ensures { IfOk result (λ v. v ≡ add m.now (at_place k d)) }
{
    let mut entries = Vec::new(alloc);
    for j in 0..m.len() {
        push(&mut entries, moved_entry(m, k, d, j))?;
    }
    Ok(IntVec::from_vec(entries))
}

// Whether x is m + d e_k; k counts from 0.
pub(crate) fn is_moved(x: &IntVec, m: &IntVec, k: usize, d: i128) -> bool
    requires lengths { length x.now ≡ length m.now }
    requires place { k < length m.now }
    requires small { Each m.now IsCoordinate }
    requires least { pos 0 ≤ℤ d }
    requires greatest { d ≤ℤ pos 32000000 }
    ensures { IsTrue result ↔ x.now ≡ add m.now (at_place k d) }
{
    for j in 0..x.len() {
        if x.get(j) != moved_entry(m, k, d, j) {
            return false;
        }
    }
    true
}
