ghost use Rattle.std.specs.Prelude.{◌≡◌, ◌↔◌, ◌+◌, [], All, IfOk, IfErr, MatchResult};
ghost use Rattle.int_vectors.specs.Vectors.{Each};
ghost use Rattle.cayley.specs.Cells.{IsOf, IsIndependent, IsCellKernel};
ghost use Rattle.cayley.specs.Problems as problems;
ghost use Rattle.cayley.specs.Problems.{unperturbed, version1, HasSamePoints};
ghost use Rattle.cayley.specs.Rows.{edge_rows};
ghost use Rattle.crossing.specs.Entries.{IsEntry};
ghost use Rattle.crossing.specs.Lines.{FitsLine};
ghost use Rattle.crossing.specs.declared.entry.Entry.TheVariants as entry;
ghost use Rattle.inner_normal.specs.MovingNormals.{IsMovingNormal};
ghost use Rattle.inner_normal.specs.Workings.{IsNormalFrom};
ghost use Rattle.reduced_rows.specs.CellRefusals.{IsEliminated, IsCellFault, OnDependent, HasAnswer, IsCellDependent, CellOverflowExactly};
ghost use Rattle.reduced_rows.specs.Refusals.{IsFromFault};
ghost use Rattle.reduced_rows.specs.Steps.{FitsElimination};
ghost use Rattle.cone_walls.specs.Fines.{HasFine};
ghost use Rattle.cone_walls.specs.Lives.{IsNeverAlive, LivesBetween};
ghost use Rattle.cone_walls.specs.Made.{IsMade};
ghost use Rattle.cone_walls.specs.Places.{AreOfFurtherPoints, HasNumbers};
ghost use Rattle.cone_walls.specs.Sides.{TellSides, TellSidesAt};
ghost use Rattle.cone_walls.specs.Workings.{FitsRest, FitsWallWorking};

use crate::fines::with_fines;
use crate::lines::lines_of;
use crate::steps::Steps;
use cayley::{Cell, Problem};
use crossing::WallLine;
use inner_normal::{Eliminated, MovingNormal};
use reduced_rows::{CellFault, FromFault, Reduced};
use std::alloc::Global;
use std::sync::ledger::Ledger;

/// An independent cell with the line of each further point.
#[derive(Debug, Drop)]
pub struct Walls {
    /// The reduced rows of the cell.
    pub reduced: Reduced,
    /// The normal at all times, over a denominator that is at least 1.
    pub normal: MovingNormal,
    /// One line for each further point, in order of support and position, which count from 1. Its
    /// numbers are over the same denominator.
    pub lines: Vec<WallLine>,
}

// The walls of a cell that was eliminated.
pub(crate) fn walls_within(
    alloc: Global,
    problem: &Problem,
    cell: &Cell,
    eliminated: Eliminated,
) -> Result<Walls, FromFault>
    requires of { IsOf problem.now cell.now }
    requires answer { IsEliminated problem.now.dimension (edge_rows problem.now cell.now) eliminated }
    ensures { MatchResult result
        (λ w. IsMade problem.now cell.now w.reduced w.normal w.lines.items)
        (IsFromFault (FitsRest problem.now cell.now eliminated)) }
{
    let _dim = problem.dim();
    let normal = eliminated.normal(alloc)?;
    let coarse = lines_of(alloc, problem, cell, &normal)?;
    let lines = with_fines(alloc, problem, cell, &eliminated, coarse)?;
    Ok(Walls {
        reduced: eliminated.into_reduced(),
        normal,
        lines,
    })
}

// The walls of a cell.
fn made_walls(alloc: Global, problem: &Problem, cell: &Cell) -> Result<Walls, CellFault>
    requires { IsOf problem.now cell.now }
    ensures { MatchResult result
        (λ w. IsMade problem.now cell.now w.reduced w.normal w.lines.items)
        (IsCellFault (FitsWallWorking problem.now cell.now) problem.now.dimension (edge_rows problem.now cell.now)) }
{
    let eliminated = Eliminated::of(alloc, problem, cell)?;
    let walls = walls_within(alloc, problem, cell, eliminated)?;
    Ok(walls)
}

/// The reduced rows, the normal and the wall lines of a cell that the problem contains. `Overflow`
/// exactly where a number of the elimination, kernel, denominator, normal or wall lines doesn't
/// fit, or in version 2 a number of a further point's circuit, else `Dependent` exactly where the
/// differences are dependent. Each call is a step.
///
/// The line of point c of a support is `den` times how much higher c stands than the first point of
/// the support's pair, under the cell's normal over `den` (walls, in outline after Jensen 2016). In
/// version 2 the infinitesimals of the points take part, each times the number of its point in the
/// circuit of the cell and c.
pub fn walls_of<L: Ledger>(
    alloc: Global,
    problem: &Problem,
    cell: &Cell,
    steps: &mut Steps<L>,
) -> Result<Walls, CellFault>
    requires { IsOf problem.now cell.now }
    ensures steps { steps.new ≡ steps.old + 1 }
    // Ok: the reduced rows are the elimination's, and the normal is made from them.
    ensures answers { IfOk result (λ w. IsEliminated problem.now.dimension (edge_rows problem.now cell.now) w.reduced × IsNormalFrom w.reduced w.normal) }
    // It is the one normal at every time, of the problem and of each with the same points in another
    // version or with other ranks.
    ensures normal { IfOk result (λ w. (p : problems.Problem) → HasSamePoints p problem.now → IsMovingNormal p cell.now w.normal) }
    // One line for each further point and no other, in order, with its numbers, which fit.
    ensures places { IfOk result (λ w. AreOfFurtherPoints problem.now cell.now w.lines.items) }
    ensures values { IfOk result (λ w. Each w.lines.items (HasNumbers problem.now cell.now w.normal)) }
    ensures fit { IfOk result (λ w. All FitsLine w.lines.items) }
    // The fine parts: for each rank the sum of the numbers of the circuit's points that have it, and
    // none in version 1.
    ensures fine { IfOk result (λ w. Each w.lines.items (HasFine problem.now cell.now w.reduced)) }
    ensures plain { problem.now.version ≡ version1 → IfOk result (λ w. Each w.lines.items (λ line. line.fine ≡ [])) }
    // At every time the line's value is positive, zero or negative exactly where its point is above,
    // level or below.
    ensures sides { IfOk result (λ w. TellSides problem.now cell.now w.lines.items) }
    // Without the fine parts it tells so of heights without infinitesimals.
    ensures coarse { IfOk result (λ w. (p : problems.Problem) → HasSamePoints p problem.now → TellSidesAt (unperturbed p) cell.now w.lines.items) }
    // The cell's life is the open interval between the two ends of its lines.
    ensures dead { IfOk result (λ w. IsNeverAlive problem.now cell.now ↔ IsEntry w.lines.items entry.Dead) }
    ensures life { IfOk result (λ w. LivesBetween problem.now cell.now w.lines.items) }
    // Ok: all numbers of the working fit.
    ensures whole { IfOk result (λ _. FitsWallWorking problem.now cell.now) }
    ensures overflow { HasAnswer result → CellOverflowExactly (FitsWallWorking problem.now cell.now) result }
    ensures dependent { HasAnswer result → IsCellDependent result
        ↔ (FitsElimination problem.now.dimension (edge_rows problem.now cell.now) × ¬ (IsIndependent problem.now cell.now)) }
    // Dependent: the kernel isn't zero, and it is orthogonal to each difference of the pairs.
    ensures kernel { IfErr result (OnDependent (IsCellKernel problem.now cell.now)) }
    // The kernel that comes out is that of the working.
    ensures working { IfErr result (IsCellFault (FitsWallWorking problem.now cell.now) problem.now.dimension (edge_rows problem.now cell.now)) }
{
    let _dim = problem.dim();
    steps.tick();
    made_walls(alloc, problem, cell)
}
