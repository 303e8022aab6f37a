// The normal that a node's matrix gives.
ghost use Rattle.std.specs.Prelude.{◌≡◌, ◌↔◌, ◌+◌, ◌-◌, ◌*◌, ◌<◌, ◌≤◌, ◌++◌, ◌-ℤ◌, ℕ, pos, IfOk, MatchResult, length};
ghost use Rattle.wide_int.specs.Whole.{FitsWhole};
ghost use Rattle.int_vectors.specs.Fits.{AllFit};
ghost use Rattle.reduced_rows.specs.Refusals.{IsFromFault};
ghost use Rattle.cayley.specs.Cells.{IsOf};
ghost use Rattle.cayley.specs.Problems.{point_at};
ghost use Rattle.cayley.specs.Valid.{support_at};
ghost use Rattle.carried_inverse.specs.Sums.{base_falls, speed_falls};
ghost use Rattle.log_check.specs.Nodes.{HasShape};
ghost use Rattle.log_check.specs.Numbers.{row_products, FitsRows, FitsSums, normal_of};

use cayley::{Cell, Problem};
use inner_normal::MovingNormal;
use int_vectors::{IntVec, dot_from};
use path_trace::TraceNode;
use reduced_rows::FromFault;
use std::alloc::Global;
use wide_int::OutOfMemory;

// How far a height falls.
fn fall(a: i64, b: i64) -> i128
    ensures value { result ≡ a -ℤ b }
    ensures fits { FitsWhole result }
{
    a as i128 - b as i128
}

// The falls of base and speed from the first to the second point of the pair of support i.
fn fall_of(problem: &Problem, i: u32, pair: (u32, u32)) -> (i128, i128)
    requires least { 1 ≤ i }
    requires greatest { i ≤ problem.now.dimension }
    requires pair { (1 ≤ pair.0) × (pair.0 < pair.1) × (pair.1 ≤ length (support_at problem.now i)) }
    ensures base { let s = support_at problem.now i in result.0 ≡ (point_at s pair.0).base -ℤ (point_at s pair.1).base }
    ensures speed { let s = support_at problem.now i in result.1 ≡ (point_at s pair.0).speed -ℤ (point_at s pair.1).speed }
    ensures base_fits { FitsWhole result.0 }
    ensures speed_fits { FitsWhole result.1 }
{
    let a = problem.point(i, pair.0);
    let b = problem.point(i, pair.1);
    (fall(a.base, b.base), fall(a.speed, b.speed))
}

// The falls of the bases and of the speeds of all pairs.
#[derive(Drop)]
struct Falls {
    bases: IntVec,
    speeds: IntVec,
}

fn falls_of(alloc: Global, problem: &Problem, cell: &Cell) -> Result<Falls, OutOfMemory>
    requires { IsOf problem.now cell.now }
    ensures { IfOk result (λ r. (r.bases ≡ base_falls problem.now.supports cell.now) × (r.speeds ≡ speed_falls problem.now.supports cell.now)) }
{
    // A problem is valid by its type, as its readers tell.
    let _dim = problem.dim();
    let pairs = cell.pairs();
    let mut bases = Vec::new(alloc);
    let mut speeds = Vec::new(alloc);
    for i in 0..pairs.len() {
        let (base, speed) = fall_of(problem, i as u32 + 1, pairs[i]);
        if let Err(_) = bases.push(base) {
            return Err(OutOfMemory);
        }
        if let Err(_) = speeds.push(speed) {
            return Err(OutOfMemory);
        }
    }
    Ok(Falls {
        bases: IntVec::from_vec(bases),
        speeds: IntVec::from_vec(speeds),
    })
}

// The products of the rows of a square matrix with a list. `Overflow` exactly where a number of them
// doesn't fit.
fn row_sums(alloc: Global, n: usize, matrix: &[i128], falls: &[i128]) -> Result<IntVec, FromFault>
    requires long { length matrix.now ≡ n * n }
    requires falls { length falls.now ≡ n }
    ensures { MatchResult result
        (λ v. FitsRows n n matrix.now falls.now × (v ≡ row_products n n matrix.now falls.now))
        (IsFromFault (FitsRows n n matrix.now falls.now)) }
{
    let mut sums = Vec::new(alloc);
    let mut rest = matrix;
    for _row in 0..n {
        let (head, tail) = rest.split_at(n);
        let Some(sum) = dot_from(0, head, falls) else {
            return Err(FromFault::Overflow);
        };
        if let Err(_) = sums.push(sum) {
            return Err(FromFault::OutOfMemory);
        }
        rest = tail;
    }
    Ok(IntVec::from_vec(sums))
}

// The normal of a node. `Overflow` exactly where a number of it doesn't fit.
pub(crate) fn normal_by(
    alloc: Global,
    problem: &Problem,
    node: &TraceNode,
) -> Result<MovingNormal, FromFault>
    requires of { IsOf problem.now node.now.cell }
    requires shape { HasShape problem.now node.now }
    ensures { MatchResult result
        (λ m. FitsSums problem.now node.now × (m ≡ normal_of problem.now node.now))
        (IsFromFault (FitsSums problem.now node.now)) }
{
    let n = problem.dim();
    let falls = match falls_of(alloc, problem, &node.cell) {
        Ok(falls) => falls,
        Err(OutOfMemory) => return Err(FromFault::OutOfMemory),
    };
    let matrix = node.inverse.as_slice();
    let p = row_sums(alloc, n, matrix, falls.bases.as_slice())?;
    let q = row_sums(alloc, n, matrix, falls.speeds.as_slice())?;
    Ok(MovingNormal {
        p,
        q,
        den: node.scale,
    })
}
