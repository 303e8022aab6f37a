ghost use Rattle.std.specs.Prelude.{◌≡◌, ◌↔◌, ◌+◌, ℤ, pos, ◌<ℤ◌, List, MatchResult, IfOk, IfErr, length};
ghost use Rattle.cayley.specs.Cells as cells;
ghost use Rattle.cayley.specs.Cells.{IsOf, IsIndependent, IsCellKernel};
ghost use Rattle.cayley.specs.Problems as problems;
ghost use Rattle.cayley.specs.Problems.{IsProblem, HasSamePoints};
ghost use Rattle.cayley.specs.Rows.{edge_rows};
ghost use Rattle.reduced_rows.specs.CellRefusals.{IsEliminated, IsCellFault, OnDependent, HasAnswer, IsCellDependent, CellOverflowExactly};
ghost use Rattle.reduced_rows.specs.Denominators.{FitsLcm};
ghost use Rattle.reduced_rows.specs.Refusals.{IsFromFault};
ghost use Rattle.reduced_rows.specs.Steps.{FitsElimination};
ghost use Rattle.inner_normal.specs.MovingNormals.{IsMovingNormal};
ghost use Rattle.inner_normal.specs.Workings.{HaveWidths, denominator, FitsNormal, IsNormalFrom, FitsNormalWorking, IsNormalOfRows};

use crate::eliminated::Eliminated;
use crate::moving::MovingNormal;
use cayley::{Cell, Problem};
use reduced_rows::{CellFault, FromFault, Reduced};
use std::alloc::Global;

// The normal that reduced rows give over their common denominator.
pub(crate) fn normal_over(
    alloc: Global,
    reduced: &Reduced,
    den: i128,
) -> Result<MovingNormal, FromFault>
    requires widths { HaveWidths reduced.now }
    requires den { FitsLcm 0 1 reduced.now × (den ≡ pos (denominator reduced.now)) }
    requires positive { pos 0 <ℤ den }
    ensures working { MatchResult result
        (λ m. FitsNormal (length reduced.now) reduced.now × IsNormalFrom reduced.now m)
        (IsFromFault (FitsNormal (length reduced.now) reduced.now)) }
    ensures normal { IfOk result (λ m. (p : problems.Problem) (cell : cells.Cell) → IsProblem p → IsOf p cell
        → IsEliminated p.dimension (edge_rows p cell) reduced.now → IsMovingNormal p cell m) }
{
    let resting = reduced.count();
    let Some(moving) = resting.checked_add(1) else {
        return Err(FromFault::OutOfMemory);
    };
    let p = reduced.solution(alloc, resting, den)?;
    let q = reduced.solution(alloc, moving, den)?;
    Ok(MovingNormal { p, q, den })
}

/// The normal at all times of a cell whose rows have these reduced rows. `Overflow` exactly where a
/// number of the denominator or of the normal doesn't fit.
pub fn normal_from(alloc: Global, reduced: &Reduced) -> Result<MovingNormal, FromFault>
    requires answer { (p : problems.Problem) × (cell : cells.Cell) × IsProblem p × IsOf p cell × IsEliminated p.dimension (edge_rows p cell) reduced.now }
    // The numbers that come out are those of the working.
    ensures working { MatchResult result
        (λ m. FitsNormal (length reduced.now) reduced.now × IsNormalFrom reduced.now m)
        (IsFromFault (FitsNormal (length reduced.now) reduced.now)) }
    // Of every cell with these reduced rows it is the one normal at every time.
    ensures normal { IfOk result (λ m. (p : problems.Problem) (cell : cells.Cell) → IsProblem p → IsOf p cell
        → IsEliminated p.dimension (edge_rows p cell) reduced.now → IsMovingNormal p cell m) }
{
    match reduced.denominator() {
        Some(den) => normal_over(alloc, reduced, den),
        None => Err(FromFault::Overflow),
    }
}

// The normal by one elimination.
fn normal_of_rows(alloc: Global, problem: &Problem, cell: &Cell) -> Result<MovingNormal, CellFault>
    requires { IsOf problem.now cell.now }
    ensures { MatchResult result
        (IsNormalOfRows problem.now cell.now)
        (IsCellFault (FitsNormalWorking problem.now cell.now) problem.now.dimension (edge_rows problem.now cell.now)) }
{
    let eliminated = Eliminated::of(alloc, problem, cell)?;
    let normal = eliminated.normal(alloc)?;
    Ok(normal)
}

/// The normal at all times of a cell that the problem contains. `Overflow` exactly where a number
/// of the elimination, kernel, denominator or normal doesn't fit, else `Dependent` exactly where
/// the differences are dependent.
pub fn normal_of(alloc: Global, problem: &Problem, cell: &Cell) -> Result<MovingNormal, CellFault>
    requires { IsOf problem.now cell.now }
    // The one normal at every time, of the problem and of each with the same points in another
    // version or with other ranks.
    ensures normal { IfOk result (λ m. (p : problems.Problem) → HasSamePoints p problem.now → IsMovingNormal p cell.now m) }
    ensures overflow { HasAnswer result → CellOverflowExactly (FitsNormalWorking problem.now cell.now) result }
    ensures dependent { HasAnswer result → IsCellDependent result
        ↔ (FitsElimination problem.now.dimension (edge_rows problem.now cell.now) × ¬ (IsIndependent problem.now cell.now)) }
    // Dependent: the kernel isn't zero, and it is orthogonal to each difference of the pairs.
    ensures kernel { IfErr result (OnDependent (IsCellKernel problem.now cell.now)) }
    // The numbers that come out are those of the working.
    ensures working { MatchResult result
        (λ m. FitsNormalWorking problem.now cell.now
        × ((made : List (List ℤ)) → IsEliminated problem.now.dimension (edge_rows problem.now cell.now) made → IsNormalFrom made m))
        (IsCellFault (FitsNormalWorking problem.now cell.now) problem.now.dimension (edge_rows problem.now cell.now)) }
{
    // A problem is valid by its type, as its readers tell.
    let _dim = problem.dim();
    normal_of_rows(alloc, problem, cell)
}
