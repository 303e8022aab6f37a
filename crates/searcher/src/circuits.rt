ghost use Rattle.std.specs.Prelude.{◌≡◌, ◌↔◌, [], IsTrue, MatchOption, MatchResult};
ghost use Rattle.int_vectors.specs.Vectors.{Each};
ghost use Rattle.reduced_rows.specs.CellRefusals.{IsEliminated};
ghost use Rattle.reduced_rows.specs.Refusals.{IsFromFault};
ghost use Rattle.cayley.specs.Cells.{IsOf};
ghost use Rattle.cayley.specs.Rows.{edge_rows};
ghost use Rattle.cone_walls.specs.Places.{AreOfFurtherPoints};
ghost use Rattle.inner_normal.specs.Inverses.{inverse_of, IsInverseOf};
ghost use Rattle.searcher.specs.LineCircuits.{NamesFurther, FitsItsCircuit};
ghost use Rattle.searcher.specs.Workings.{FitAllCircuits};

use cayley::{Cell, Problem};
use cone_walls::{Reduced, WallLine};
use inner_normal::{ScaledInverse, coefficients_fit_at};
use reduced_rows::FromFault;
use std::alloc::Global;

// Whether all numbers of the circuits of the lines' points fit. Where one bound shows that, no
// number is made.
fn circuits_fit(problem: &Problem, cell: &Cell, inverse: &ScaledInverse, lines: &[WallLine]) -> bool
    requires cell { IsOf problem.now cell.now }
    requires inverse { IsInverseOf problem.now cell.now inverse.now }
    requires further { Each lines.now (NamesFurther problem.now cell.now) }
    ensures { IsTrue result ↔ Each lines.now (FitsItsCircuit problem.now cell.now inverse.now) }
{
    for line in lines {
        if !coefficients_fit_at(problem, cell, inverse, line.support, line.position) {
            return false;
        }
    }
    true
}

// The inverse of the cell's differences, if it has a further point; `Overflow` exactly where a
// number of some further point's circuit doesn't fit.
pub(crate) fn fitting_inverse(
    alloc: Global,
    problem: &Problem,
    cell: &Cell,
    reduced: &Reduced,
    lines: &[WallLine],
) -> Result<Option<ScaledInverse>, FromFault>
    requires cell { IsOf problem.now cell.now }
    requires answer { IsEliminated problem.now.dimension (edge_rows problem.now cell.now) reduced.now }
    requires places { AreOfFurtherPoints problem.now cell.now lines.now }
    ensures { MatchResult result
        (λ made. FitAllCircuits problem.now cell.now reduced.now × MatchOption made (lines.now ≡ []) (λ inverse. inverse ≡ inverse_of reduced.now))
        (IsFromFault (FitAllCircuits problem.now cell.now reduced.now)) }
{
    // A problem is valid by its type, as its readers tell.
    let _dim = problem.dim();
    if lines.is_empty() {
        return Ok(None);
    }
    let inverse = ScaledInverse::of(alloc, reduced)?;
    if !circuits_fit(problem, cell, &inverse, lines) {
        return Err(FromFault::Overflow);
    }
    Ok(Some(inverse))
}
