ghost use Rattle.cayley.specs.Stored.{cells_of};
ghost use Rattle.std.specs.Prelude.{◌≡◌, [], IfOk, IfErr, MatchResult, Contains};
ghost use Rattle.int_vectors.specs.Vectors.{Each};
ghost use Rattle.inner_normal.specs.Workings.{FitsNormalWorking};
ghost use Rattle.cayley.specs.Cells.{IsListOf, IsSorted};
ghost use Rattle.cayley.specs.Mixed.{IsAlive, IsMixedCell};
ghost use Rattle.cayley.specs.Problems.{HasNoCorners, IsStill, file_points};
ghost use Rattle.cayley.specs.Times.{time_zero};
ghost use Rattle.searcher.specs.Expansions.{HasLowestNormal, HasNoTie};
ghost use Rattle.lift_move.specs.Segments.{IsSegment, IsGeneric, end_of};
ghost use Rattle.lift_move.specs.Moves.{AreMoved, IsMoveHalt, AreAll, FitAllOnTheWay, HasNoOverflow, IsUnfitCell, AreUnfit};

use cayley::{Cell, FoundCell, Problem};
use cone_walls::{CellFault, Steps};
use inner_normal::{normal_of, target_normal};
use searcher::{HaltCause, pass_until};
use std::alloc::Global;
use std::sync::ledger::Ledger;

// A mixed cell of a problem whose points rest, with its normal in lowest terms.
fn found_cell(alloc: Global, second: &Problem, cell: &Cell) -> Result<FoundCell, HaltCause>
    requires own { file_points second.now ≡ second.now }
    requires still { IsStill second.now }
    requires mixed { IsMixedCell second.now cell.now }
    ensures { MatchResult result (λ found. (found.cell ≡ cell.now) × HasLowestNormal second.now found) (IsUnfitCell second.now cell.now) }
{
    // A problem is valid by its type, as its readers tell.
    let _dim = second.dim();
    match normal_of(alloc, second, cell) {
        Ok(normal) => Ok(FoundCell {
            cell: cell.copy(),
            normal: target_normal(normal),
        }),
        Err(CellFault::Overflow) => Err(HaltCause::Overflow { cell: cell.copy() }),
        // A mixed cell is independent.
        Err(CellFault::Dependent { .. }) => unreachable!(),
        Err(CellFault::OutOfMemory) => Err(HaltCause::OutOfMemory),
    }
}

// The cells with their normals in lowest terms.
fn found_cells(alloc: Global, second: &Problem, cells: &[Cell]) -> Result<Vec<FoundCell>, HaltCause>
    requires own { file_points second.now ≡ second.now }
    requires still { IsStill second.now }
    requires mixed { Each cells.now (IsMixedCell second.now) }
    ensures cells { IfOk result (λ found. cells_of found.items ≡ cells.now) }
    ensures normals { IfOk result (λ found. Each found.items (HasLowestNormal second.now)) }
    ensures halt { IfErr result (λ cause. AreUnfit second.now cells.now cause) }
{
    let mut found = Vec::new(alloc);
    for cell in cells {
        if found.reserve(1).is_err() {
            return Err(HaltCause::OutOfMemory);
        }
        let next = match found_cell(alloc, second, cell) {
            Ok(next) => next,
            Err(cause) => return Err(cause),
        };
        found.push_reserved(next);
    }
    Ok(found)
}

/// The mixed cells of the second lift to which these cells of the first one lead, in cell order,
/// with their normals in lowest terms. `segment` is the problem of points that go straight from the
/// first lift at time 0 to the second at time 1, `second` that of the points at rest with their
/// second heights. The cells are in cell order and alive at time 0.
///
/// Each cell is followed with all that comes of it before the next, children in cell order. One that
/// doesn't end until time 1, and not at it, is found; one that ends before is followed by the
/// children that it keeps there (the flips of Jensen 2016). `Tie` where two further points are level
/// where a cell ends, after time 0 and at most at time 1; `Overflow` where a number of a cell's
/// working doesn't fit, or of the normal of one that is found.
pub fn move_cells<L: Ledger>(
    alloc: Global,
    segment: &Problem,
    second: &Problem,
    cells: &[Cell],
    steps: &mut Steps<L>,
) -> Result<Vec<FoundCell>, HaltCause>
    requires segment { IsSegment segment.now }
    requires second { second.now ≡ end_of segment.now }
    requires order { IsSorted cells.now }
    requires alive { Each cells.now (λ cell. IsAlive segment.now cell time_zero) }
    // Ok: exactly the cells that are alive at time 1 and have a given cell in their chain.
    ensures answer { MatchResult result (λ found. AreMoved segment.now second.now cells.now found.items) (IsMoveHalt segment.now second.now cells.now) }
    // They are mixed cells of the second lift.
    ensures mixed { IfOk result (λ found. Each (cells_of found.items) (IsMixedCell second.now)) }
    // From all cells of the first lift along a generic segment they are all of the second.
    ensures full { IsGeneric segment.now → AreAll segment.now cells.now → IfOk result (λ found. IsListOf (IsMixedCell second.now) (cells_of found.items)) }
    // No tie comes along a generic segment, and no overflow where all workings fit.
    ensures untied { IsGeneric segment.now → IfErr result HasNoTie }
    ensures complete { FitAllOnTheWay segment.now second.now cells.now → IfErr result HasNoOverflow }
{
    // A problem is valid by its type, as its readers tell.
    let _first = segment.dim();
    let _dim = second.dim();
    let reached = match pass_until(alloc, segment, cells, steps) {
        Ok(reached) => reached,
        Err(cause) => return Err(cause),
    };
    match found_cells(alloc, second, &reached) {
        Ok(found) => Ok(found),
        Err(cause) => Err(cause),
    }
}
