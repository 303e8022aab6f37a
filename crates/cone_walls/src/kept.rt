ghost use Rattle.std.specs.Prelude.{◌≡◌, ◌↔◌, ◌+◌, ◌<◌, ◌≤◌, ℕ, [], All, IfOk, IfErr, MatchResult, length, slice_index_or};
ghost use Rattle.int_vectors.specs.Vectors.{Each};
ghost use Rattle.cayley.specs.Cells.{IsOf, IsIndependent, IsCellKernel};
ghost use Rattle.cayley.specs.Problems as problems;
ghost use Rattle.cayley.specs.Problems.{unperturbed, version1, HasSamePoints};
ghost use Rattle.cayley.specs.Rows.{edge_rows};
ghost use Rattle.crossing.specs.Entries.{IsEntry};
ghost use Rattle.crossing.specs.Lines.{FitsLine};
ghost use Rattle.crossing.specs.declared.entry.Entry.TheVariants as entry;
ghost use Rattle.inner_normal.specs.MovingNormals.{IsMovingNormal};
ghost use Rattle.inner_normal.specs.Workings.{IsNormalFrom};
ghost use Rattle.reduced_rows.specs.CellRefusals.{IsEliminated, IsCellFault, OnDependent, HasAnswer, IsCellDependent, CellOverflowExactly};
ghost use Rattle.reduced_rows.specs.Refusals.{IsFault, HasKernel};
ghost use Rattle.reduced_rows.specs.Steps.{OfLength, FitsElimination};
ghost use Rattle.cone_walls.specs.Differences.{IsDifference};
ghost use Rattle.cone_walls.specs.Fines.{HasFine};
ghost use Rattle.cone_walls.specs.Lives.{IsNeverAlive, LivesBetween};
ghost use Rattle.cone_walls.specs.Made.{IsMade};
ghost use Rattle.cone_walls.specs.Places.{AreOfFurtherPoints, HasNumbers};
ghost use Rattle.cone_walls.specs.Sides.{TellSides, TellSidesAt};
ghost use Rattle.cone_walls.specs.Workings.{FitsWallWorking};

use crate::steps::Steps;
use crate::walls::{Walls, walls_within};
use cayley::{Cell, Problem};
use inner_normal::Eliminated;
use int_vectors::IntVec;
use reduced_rows::{CellFault, ReduceFault};
use std::alloc::Global;
use std::sync::ledger::Ledger;
use table_update::{Kept, Table};

// In what the rows of a table differ from others.
#[derive(Drop)]
pub(crate) enum Difference {
    // In none.
    Same,
    // In the row at a place, counted from 1, alone, which is as long as its own.
    One(usize),
    // In more than that.
    More,
}

// The first place from `from` on, counted from 0, at which the rows differ; their number where they
// don't.
fn first_other(kept: &[IntVec], rows: &[IntVec], from: usize) -> usize
    requires count { length kept.now ≡ length rows.now }
    requires from { from ≤ length rows.now }
    ensures last { result ≤ length rows.now }
    ensures first { from ≤ result }
    ensures same { (j : ℕ) → from ≤ j → j < result → slice_index_or kept.now j [] ≡ slice_index_or rows.now j [] }
{
    for i in from..rows.len() {
        if kept[i].as_slice() != rows[i].as_slice() {
            return i;
        }
    }
    rows.len()
}

// In what the rows of a table differ from those of a cell.
fn compared(kept: &[IntVec], rows: &[IntVec]) -> Difference
    ensures { IsDifference kept.now rows.now result }
{
    let count = rows.len();
    if kept.len() != count {
        return Difference::More;
    }
    let first = first_other(kept, rows, 0);
    if first == count {
        return Difference::Same;
    }
    let second = first_other(kept, rows, first + 1);
    if second == count && kept[first].len() == rows[first].len() {
        Difference::One(first + 1)
    } else {
        Difference::More
    }
}

// The table of the rows, by that which was kept where it differs in one row at most.
fn table_of(alloc: Global, kept: Option<Table>, rows: Vec<IntVec>) -> Result<Table, ReduceFault>
    requires { (n : ℕ) × (length rows.items ≤ n) × OfLength n rows.items }
    ensures rows { IfOk result (λ table. table.rows ≡ rows.items) }
    ensures kernel { IfErr result (HasKernel (length rows.items) rows.items) }
    ensures working { IfErr result (IsFault (length rows.items) rows.items) }
{
    let Some(table) = kept else {
        return Table::new(alloc, rows);
    };
    match compared(table.rows(), &rows) {
        Difference::Same => Ok(table),
        Difference::One(place) => {
            let mut rows = rows;
            let row = rows.remove(place - 1);
            table.exchange(alloc, place, row)
        }
        Difference::More => Table::new(alloc, rows),
    }
}

// The elimination of a cell by the table that is kept, which is that of the cell's rows then; where it
// is refused, none is kept.
fn eliminated_from(
    alloc: Global,
    problem: &Problem,
    cell: &Cell,
    kept: &mut Kept,
) -> Result<Eliminated, CellFault>
    requires { IsOf problem.now cell.now }
    ensures { let n = problem.now.dimension in let rows = edge_rows problem.now cell.now in MatchResult result
        (IsEliminated n rows)
        (IsCellFault (FitsElimination n rows) n rows) }
{
    let rows = problem.edge_rows(alloc, cell)?;
    let table = table_of(alloc, kept.take(), rows)?;
    let reduced = table.reduced().copy(alloc)?;
    kept.put(table);
    Ok(Eliminated::from_reduced(reduced))
}

// The walls of a cell, by the table that is kept.
fn made_from(
    alloc: Global,
    problem: &Problem,
    cell: &Cell,
    kept: &mut Kept,
) -> Result<Walls, CellFault>
    requires { IsOf problem.now cell.now }
    ensures { MatchResult result
        (λ w. IsMade problem.now cell.now w.reduced w.normal w.lines.items)
        (IsCellFault (FitsWallWorking problem.now cell.now) problem.now.dimension (edge_rows problem.now cell.now)) }
{
    let eliminated = eliminated_from(alloc, problem, cell, kept)?;
    let walls = walls_within(alloc, problem, cell, eliminated)?;
    Ok(walls)
}

/// What [`walls_of`](crate::walls_of) answers, whatever table is kept. Where the rows of the cell's
/// pairs are those of the table, its reduced rows are used; where they differ in one row, that is
/// exchanged; else the table is made afresh. The table of the cell is kept then, or none after a
/// refusal. Each call is a step.
pub fn walls_from<L: Ledger>(
    alloc: Global,
    problem: &Problem,
    cell: &Cell,
    kept: &mut Kept,
    steps: &mut Steps<L>,
) -> Result<Walls, CellFault>
    requires { IsOf problem.now cell.now }
    ensures steps { steps.new ≡ steps.old + 1 }
    // Ok: the reduced rows are the elimination's, and the normal is made from them.
    ensures answers { IfOk result (λ w. IsEliminated problem.now.dimension (edge_rows problem.now cell.now) w.reduced × IsNormalFrom w.reduced w.normal) }
    // It is the one normal at every time, of the problem and of each with the same points in another
    // version or with other ranks.
    ensures normal { IfOk result (λ w. (p : problems.Problem) → HasSamePoints p problem.now → IsMovingNormal p cell.now w.normal) }
    // One line for each further point and no other, in order, with its numbers, which fit.
    ensures places { IfOk result (λ w. AreOfFurtherPoints problem.now cell.now w.lines.items) }
    ensures values { IfOk result (λ w. Each w.lines.items (HasNumbers problem.now cell.now w.normal)) }
    ensures fit { IfOk result (λ w. All FitsLine w.lines.items) }
    // The fine parts: for each rank the sum of the numbers of the circuit's points that have it, and
    // none in version 1.
    ensures fine { IfOk result (λ w. Each w.lines.items (HasFine problem.now cell.now w.reduced)) }
    ensures plain { problem.now.version ≡ version1 → IfOk result (λ w. Each w.lines.items (λ line. line.fine ≡ [])) }
    // At every time the line's value is positive, zero or negative exactly where its point is above,
    // level or below.
    ensures sides { IfOk result (λ w. TellSides problem.now cell.now w.lines.items) }
    // Without the fine parts it tells so of heights without infinitesimals.
    ensures coarse { IfOk result (λ w. (p : problems.Problem) → HasSamePoints p problem.now → TellSidesAt (unperturbed p) cell.now w.lines.items) }
    // The cell's life is the open interval between the two ends of its lines.
    ensures dead { IfOk result (λ w. IsNeverAlive problem.now cell.now ↔ IsEntry w.lines.items entry.Dead) }
    ensures life { IfOk result (λ w. LivesBetween problem.now cell.now w.lines.items) }
    // Ok: all numbers of the working fit.
    ensures whole { IfOk result (λ _. FitsWallWorking problem.now cell.now) }
    ensures overflow { HasAnswer result → CellOverflowExactly (FitsWallWorking problem.now cell.now) result }
    ensures dependent { HasAnswer result → IsCellDependent result
        ↔ (FitsElimination problem.now.dimension (edge_rows problem.now cell.now) × ¬ (IsIndependent problem.now cell.now)) }
    // Dependent: the kernel isn't zero, and it is orthogonal to each difference of the pairs.
    ensures kernel { IfErr result (OnDependent (IsCellKernel problem.now cell.now)) }
    // The kernel that comes out is that of the working.
    ensures working { IfErr result (IsCellFault (FitsWallWorking problem.now cell.now) problem.now.dimension (edge_rows problem.now cell.now)) }
{
    let _dim = problem.dim();
    steps.tick();
    made_from(alloc, problem, cell, kept)
}
