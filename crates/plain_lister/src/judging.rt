ghost use Rattle.std.specs.Prelude.{◌≡◌, ◌↔◌, IsTrue, MatchOption, MatchResult};
ghost use Rattle.cayley.specs.Cells.{IsOf};
ghost use Rattle.cayley.specs.Problems.{IsStill, HasNoCorners};
ghost use Rattle.cayley.specs.Valid.{IsValidProblem};
ghost use Rattle.cone_walls.specs.Workings.{FitsWallWorking};
ghost use Rattle.plain_lister.specs.Lists.{IsJudged};
ghost use Rattle.reduced_rows.specs.Refusals.{IsFromFault};

use cayley::{Cell, Normal, Problem};
use cone_walls::{CellFault, Steps, walls_of};
use crossing::{Entry, Exit, entry_of, exit_of};
use inner_normal::in_lowest_terms;
use reduced_rows::FromFault;
use std::alloc::Global;
use std::sync::ledger::Ledger;

// Whether neither end is there.
fn lasts(entry: Entry, exit: Exit) -> bool
    ensures { IsTrue result ↔ ((entry ≡ Entry.Always) × (exit ≡ Exit.Never)) }
{
    match entry {
        Entry::Always => match exit {
            Exit::Never => true,
            _ => false,
        },
        _ => false,
    }
}

/// The cell's normal in lowest terms, where it is a mixed cell: the points rest, so it is alive at all
/// times or at none.
pub(crate) fn judge<L: Ledger>(
    alloc: Global,
    problem: &Problem,
    cell: &Cell,
    steps: &mut Steps<L>,
) -> Result<Option<Normal>, FromFault>
    requires valid { IsValidProblem problem.now }
    requires still { IsStill problem.now }
    requires alone { HasNoCorners problem.now }
    requires of { IsOf problem.now cell.now }
    ensures { MatchResult result
        (λ judged. FitsWallWorking problem.now cell.now × IsJudged problem.now cell.now judged)
        (IsFromFault (FitsWallWorking problem.now cell.now)) }
{
    let walls = match walls_of(alloc, problem, cell, steps) {
        Ok(walls) => walls,
        Err(CellFault::Dependent { .. }) => return Ok(None),
        Err(CellFault::Overflow) => return Err(FromFault::Overflow),
        Err(CellFault::OutOfMemory) => return Err(FromFault::OutOfMemory),
    };
    if !lasts(entry_of(&walls.lines), exit_of(&walls.lines)) {
        return Ok(None);
    }
    let normal = walls.normal;
    Ok(Some(in_lowest_terms(normal.p, normal.den)))
}
