ghost use Rattle.std.specs.Prelude.{◌≡◌, ◌+◌, ◌≤◌, [], MatchOption, MatchResult, length};
ghost use Rattle.cayley.specs.Cells.{IsOf};
ghost use Rattle.cayley.specs.Problems.{IsStill};
ghost use Rattle.crossing.specs.Entries.{IsEntry};
ghost use Rattle.crossing.specs.Exits.{IsExit};
ghost use Rattle.reduced_rows.specs.CellRefusals.{IsEliminated};
ghost use Rattle.cayley.specs.Rows.{edge_rows};
ghost use Rattle.cone_walls.specs.Workings.{FitsWallWorking};
ghost use Rattle.searcher.specs.CellWalls.{AreLinesOf, FitCircuitsBy, IsOutcome, IsSaid};
ghost use Rattle.searcher.specs.Expansions.{IsCause, IsExpansion, IsSettled};

use crate::begins::begins_as;
use crate::branches::Branch;
use crate::children::kept_children;
use crate::circuits::fitting_inverse;
use crate::expansions::{Expansion, HaltCause};
use crate::targets::endless;
use crate::ties::tie_of;
use cayley::Problem;
use cone_walls::{CellFault, Steps, Walls, walls_of};
use crossing::{Entry, Exit, WallLine, entry_of, exit_of};
use inner_normal::{MovingNormal, ScaledInverse};
use reduced_rows::FromFault;
use std::alloc::Global;
use std::sync::ledger::Ledger;

// What a true branch is expanded to.
fn ended(
    alloc: Global,
    problem: &Problem,
    branch: &Branch,
    lines: &[WallLine],
    normal: MovingNormal,
    inverse: Option<ScaledInverse>,
    entry: &Entry,
    exit: &Exit,
) -> Result<Expansion, HaltCause>
    requires still { IsStill problem.now }
    requires settled { IsSettled problem.now branch.now }
    requires walls { AreLinesOf problem.now branch.now.cell normal lines.now }
    requires inverse { MatchOption inverse (lines.now ≡ []) (λ inverse. FitCircuitsBy problem.now branch.now.cell inverse) }
    requires entry { IsEntry lines.now entry.now }
    requires said { IsSaid branch.now.begin entry.now }
    requires exit { IsExit lines.now exit.now }
    ensures { MatchResult result (IsExpansion problem.now branch.now) (IsCause problem.now branch.now) }
{
    // A problem is valid by its type, as its readers tell.
    let _dim = problem.dim();
    let cell = branch.cell();
    if let Entry::Tied {
        time,
        first,
        second,
    } = *entry
    {
        return Err(HaltCause::Tie(tie_of(cell, lines, time, first, second)));
    }
    match *exit {
        Exit::Tied {
            time,
            first,
            second,
        } => Err(HaltCause::Tie(tie_of(cell, lines, time, first, second))),
        Exit::At { time, which } => {
            let Some(inverse) = inverse else {
                unreachable!();
            };
            let wall = &lines[which - 1];
            match kept_children(
                alloc,
                problem,
                cell,
                &inverse,
                wall.support,
                wall.position,
                time,
            ) {
                Ok(children) => Ok(Expansion::Inner { children }),
                Err(_fault) => Err(HaltCause::OutOfMemory),
            }
        }
        Exit::Never => Ok(endless(problem, branch, normal)),
        Exit::Flat { .. } => unreachable!(),
    }
}

// What a branch of a cell is expanded to, by the walls of the cell.
pub(crate) fn settled(
    alloc: Global,
    problem: &Problem,
    branch: &Branch,
    walls: Walls,
) -> Result<Option<Expansion>, HaltCause>
    requires still { IsStill problem.now }
    requires answer { IsEliminated problem.now.dimension (edge_rows problem.now branch.now.cell) walls.reduced }
    requires walls { AreLinesOf problem.now branch.now.cell walls.normal walls.lines.items }
    requires whole { FitsWallWorking problem.now branch.now.cell }
    ensures { MatchResult result (IsOutcome problem.now branch.now) (IsCause problem.now branch.now) }
{
    let cell = branch.cell();
    let inverse = match fitting_inverse(alloc, problem, cell, &walls.reduced, &walls.lines) {
        Ok(inverse) => inverse,
        Err(FromFault::Overflow) => return Err(HaltCause::Overflow { cell: cell.copy() }),
        Err(FromFault::OutOfMemory) => return Err(HaltCause::OutOfMemory),
    };
    let entry = entry_of(&walls.lines);
    let exit = exit_of(&walls.lines);
    if !begins_as(branch.begin(), &entry) {
        return Ok(None);
    }
    let normal = walls.normal;
    match ended(
        alloc,
        problem,
        branch,
        &walls.lines,
        normal,
        inverse,
        &entry,
        &exit,
    ) {
        Ok(expansion) => Ok(Some(expansion)),
        Err(cause) => Err(cause),
    }
}

// What a branch is expanded to; `None` where it is a stranger.
pub(crate) fn expanded<L: Ledger>(
    alloc: Global,
    problem: &Problem,
    branch: &Branch,
    steps: &mut Steps<L>,
) -> Result<Option<Expansion>, HaltCause>
    requires still { IsStill problem.now }
    ensures answer { MatchResult result (IsOutcome problem.now branch.now) (IsCause problem.now branch.now) }
    ensures step { IsOf problem.now branch.now.cell → steps.new ≡ steps.old + 1 }
    ensures no_step { ¬ (IsOf problem.now branch.now.cell) → steps.new ≡ steps.old }
{
    if !problem.contains(branch.cell()) {
        return Ok(None);
    }
    match walls_of(alloc, problem, branch.cell(), steps) {
        Ok(walls) => settled(alloc, problem, branch, walls),
        Err(CellFault::Overflow) => Err(HaltCause::Overflow {
            cell: branch.cell().copy(),
        }),
        Err(CellFault::Dependent { .. }) => Ok(None),
        Err(CellFault::OutOfMemory) => Err(HaltCause::OutOfMemory),
    }
}
