ghost use Rattle.std.specs.Prelude.{◌≡◌, ◌↔◌, ◌+◌, ◌-◌, ◌*◌, ◌≤◌, IsTrue, MatchResult, IfOk, length};
ghost use Rattle.int_vectors.specs.Vectors.{Each};
ghost use Rattle.reduced_rows.specs.Refusals.{IsFromFault};
ghost use Rattle.cayley.specs.Cells.{IsOf};
ghost use Rattle.cayley.specs.Dependencies.{nth_support, pair_at, IsFurtherAt, IsPositiveDependency};
ghost use Rattle.cayley.specs.Problems as problems;
ghost use Rattle.cayley.specs.Problems.{point_at, HasSamePoints};
ghost use Rattle.cayley.specs.Valid.{IsCornerCoordinate, IsValidProblem};
ghost use Rattle.inner_normal.specs.Coefficients.{coefficients_of, difference, FitsCoefficients, numbers_of, last_of};
ghost use Rattle.inner_normal.specs.Inverses.{IsInverseOf};

use crate::inverses::ScaledInverse;
use cayley::{Cell, Point, Problem};
use int_vectors::IntVec;
use reduced_rows::FromFault;
use std::alloc::Global;

// The point at a position of a support; both count from 1.
fn point_of(problem: &Problem, support: u32, position: u32) -> &Point
    requires support { (1 ≤ support) × (support ≤ problem.now.dimension) }
    requires position { (1 ≤ position) × (position ≤ length (nth_support problem.now.supports (support - 1))) }
    ensures same { result.now.coords ≡ (point_at (nth_support problem.now.supports (support - 1)) position).coordinates }
    ensures long { length result.now.coords ≡ problem.now.dimension }
    ensures near { Each result.now.coords IsCornerCoordinate }
    ensures valid { IsValidProblem problem.now }
{
    problem.point(support, position)
}

// The first position of the cell's pair in a support, which counts from 1.
fn first_of(problem: &Problem, cell: &Cell, support: u32) -> u32
    requires cell { IsOf problem.now cell.now }
    requires support { (1 ≤ support) × (support ≤ problem.now.dimension) }
    ensures same { result ≡ (pair_at cell.now (support - 1)).0 }
    ensures place { (1 ≤ result) × (result ≤ length (nth_support problem.now.supports (support - 1))) }
{
    // A problem is valid by its type, as its readers tell.
    let _dim = problem.dim();
    cell.pairs()[support as usize - 1].0
}

/// The numbers that `coefficients_at` gives, by any square columns over a number: it isn't tested
/// that these are the inverse of the cell. `Overflow` exactly where one of the numbers doesn't fit.
pub fn coefficients_by(
    alloc: Global,
    problem: &Problem,
    cell: &Cell,
    inverse: &ScaledInverse,
    support: u32,
    position: u32,
) -> Result<IntVec, FromFault>
    requires cell { IsOf problem.now cell.now }
    requires point { (1 ≤ support) × (support ≤ problem.now.dimension) × IsFurtherAt problem.now cell.now (support - 1) position }
    requires count { length inverse.now.columns ≡ problem.now.dimension }
    requires columns { Each inverse.now.columns (λ column. length column ≡ problem.now.dimension) }
    ensures value { let v = difference problem.now cell.now (support - 1) position in MatchResult result
        (λ made. FitsCoefficients (support - 1) inverse.now v × (made ≡ coefficients_of (support - 1) inverse.now v))
        (IsFromFault (FitsCoefficients (support - 1) inverse.now v)) }
    ensures valid { IsValidProblem problem.now }
{
    let a = point_of(problem, support, first_of(problem, cell, support));
    let c = point_of(problem, support, position);
    inverse.coefficients(
        alloc,
        c.coords.as_slice(),
        a.coords.as_slice(),
        support as usize - 1,
    )
}

/// The numbers of the dependency of a cell and the further point of `support` at `position`, which
/// count from 1, by the scaled inverse of the cell: those of a1, b1, .., an, bn and of the further
/// point, where (a_i, b_i) is the pair of support i. `Overflow` exactly where one of them doesn't
/// fit. No memory is taken but for them.
pub fn coefficients_at(
    alloc: Global,
    problem: &Problem,
    cell: &Cell,
    inverse: &ScaledInverse,
    support: u32,
    position: u32,
) -> Result<IntVec, FromFault>
    requires cell { IsOf problem.now cell.now }
    requires point { (1 ≤ support) × (support ≤ problem.now.dimension) × IsFurtherAt problem.now cell.now (support - 1) position }
    requires inverse { IsInverseOf problem.now cell.now inverse.now }
    ensures value { let v = difference problem.now cell.now (support - 1) position in MatchResult result
        (λ made. FitsCoefficients (support - 1) inverse.now v × (made ≡ coefficients_of (support - 1) inverse.now v))
        (IsFromFault (FitsCoefficients (support - 1) inverse.now v)) }
    // They are a dependency that is positive at the further point, of the problem and of each with
    // the same points in another version or with other ranks.
    ensures dependency { IfOk result (λ made. (p : problems.Problem) → HasSamePoints p problem.now → IsPositiveDependency p cell.now (support - 1) position (numbers_of made)) }
    ensures count { IfOk result (λ made. length made ≡ 2 * length cell.now + 1) }
    ensures last { IfOk result (λ made. last_of made ≡ inverse.now.den) }
    ensures valid { IsValidProblem problem.now }
{
    // A problem is valid by its type, as its readers tell.
    let _dim = problem.dim();
    let _den = inverse.den();
    coefficients_by(alloc, problem, cell, inverse, support, position)
}

/// Whether all numbers of the dependency of a cell and the further point of `support` at `position`
/// fit, so that `coefficients_at` doesn't answer `Overflow`. No memory is taken, and where the sizes
/// of the inverse's columns show that the numbers of every further point fit, no number is made.
pub fn coefficients_fit_at(
    problem: &Problem,
    cell: &Cell,
    inverse: &ScaledInverse,
    support: u32,
    position: u32,
) -> bool
    requires cell { IsOf problem.now cell.now }
    requires point { (1 ≤ support) × (support ≤ problem.now.dimension) × IsFurtherAt problem.now cell.now (support - 1) position }
    requires inverse { IsInverseOf problem.now cell.now inverse.now }
    ensures { IsTrue result ↔ FitsCoefficients (support - 1) inverse.now (difference problem.now cell.now (support - 1) position) }
{
    let a = point_of(problem, support, first_of(problem, cell, support));
    let c = point_of(problem, support, position);
    inverse.coefficients_fit(
        c.coords.as_slice(),
        a.coords.as_slice(),
        support as usize - 1,
    )
}
