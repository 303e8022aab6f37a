//! Expansions by the table of the cell that was eliminated last.
ghost use Rattle.std.specs.Prelude.{◌≡◌, ◌↔◌, ◌+◌, IfErr, MatchResult};
ghost use Rattle.cayley.specs.Problems.{IsStill};
ghost use Rattle.cayley.specs.Cells.{IsOf};
ghost use Rattle.cayley.specs.Ties.{IsTieFree};
ghost use Rattle.searcher.specs.CellWalls.{IsOutcome};
ghost use Rattle.searcher.specs.Expansions.{Kind, IsOfKind, IsAnswer, HasAnswer, IsCause, IsExpansion, IsHalt, ShowsTieAtEnd, HasNoTie};

use crate::branches::Branch;
use crate::expansions::{Expansion, Halt, HaltCause};
use crate::settling::settled;
use cayley::Problem;
use cone_walls::{CellFault, Kept, Steps, walls_from};
use std::alloc::Global;
use std::sync::ledger::Ledger;

// What a branch is expanded to; `None` where it is a stranger.
pub(crate) fn expanded_kept<L: Ledger>(
    alloc: Global,
    problem: &Problem,
    branch: &Branch,
    kept: &mut Kept,
    steps: &mut Steps<L>,
) -> Result<Option<Expansion>, HaltCause>
    requires still { IsStill problem.now }
    ensures answer { MatchResult result (IsOutcome problem.now branch.now) (IsCause problem.now branch.now) }
    ensures step { IsOf problem.now branch.now.cell → steps.new ≡ steps.old + 1 }
    ensures no_step { ¬ (IsOf problem.now branch.now.cell) → steps.new ≡ steps.old }
{
    if !problem.contains(branch.cell()) {
        return Ok(None);
    }
    match walls_from(alloc, problem, branch.cell(), kept, steps) {
        Ok(walls) => settled(alloc, problem, branch, walls),
        Err(CellFault::Overflow) => Err(HaltCause::Overflow {
            cell: branch.cell().copy(),
        }),
        Err(CellFault::Dependent { .. }) => Ok(None),
        Err(CellFault::OutOfMemory) => Err(HaltCause::OutOfMemory),
    }
}

// The expansion of a branch, which comes back where it is a stranger or was refused.
fn answered_kept<L: Ledger>(
    alloc: Global,
    problem: &Problem,
    branch: Branch,
    kept: &mut Kept,
    steps: &mut Steps<L>,
) -> Result<Expansion, Halt>
    requires still { IsStill problem.now }
    ensures answer { MatchResult result (IsExpansion problem.now branch) (IsHalt problem.now branch) }
    ensures step { IsOf problem.now branch.cell → steps.new ≡ steps.old + 1 }
    ensures no_step { ¬ (IsOf problem.now branch.cell) → steps.new ≡ steps.old }
{
    match expanded_kept(alloc, problem, &branch, kept, steps) {
        Ok(Some(expansion)) => Ok(expansion),
        Ok(None) => Ok(Expansion::Stranger { branch }),
        Err(cause) => Err(Halt { cause, branch }),
    }
}

/// Answers as [`expand`](crate::expand) does, whatever table is kept, with the walls of the cell by
/// [`walls_from`](cone_walls::walls_from): the elimination of a child is that of its parent but for
/// one row. The table of the branch's cell is kept then, or none.
pub fn expand_kept<L: Ledger>(
    alloc: Global,
    problem: &Problem,
    branch: Branch,
    kept: &mut Kept,
    steps: &mut Steps<L>,
) -> Result<Expansion, Halt>
    requires still { IsStill problem.now }
    ensures answer { MatchResult result (IsExpansion problem.now branch) (IsHalt problem.now branch) }
    // Each answer comes exactly where its cause is, unless there is no memory.
    ensures exactly { HasAnswer result → (kind : Kind) → IsAnswer kind result ↔ IsOfKind problem.now branch kind }
    // A tie is one where the cell begins or ends, and none comes where no cell has a tie.
    ensures tie { IfErr result (λ halt. ShowsTieAtEnd problem.now halt.cause) }
    ensures untied { IsTieFree problem.now → IfErr result (λ halt. HasNoTie halt.cause) }
    ensures step { IsOf problem.now branch.cell → steps.new ≡ steps.old + 1 }
    ensures no_step { ¬ (IsOf problem.now branch.cell) → steps.new ≡ steps.old }
{
    // A problem is valid by its type, as its readers tell.
    let _dim = problem.dim();
    answered_kept(alloc, problem, branch, kept, steps)
}
