ghost use Rattle.std.specs.Prelude.{◌≡◌, [], ◌∷◌, ◌++◌, MatchResult};
ghost use Rattle.cayley.specs.Cells.{IsOf};
ghost use Rattle.cayley.specs.Problems.{IsStill, HasNoCorners};
ghost use Rattle.cayley.specs.Valid.{IsValidProblem};
ghost use Rattle.plain_lister.specs.Progress.{IsDone, Before, UpTo, IsUnfitAt};

use crate::faults::PlainFault;
use crate::judging::judge;
use cayley::{Cell, FoundCell, Problem};
use cone_walls::Steps;
use reduced_rows::FromFault;
use std::alloc::Global;
use std::sync::ledger::Ledger;

fn keep(found: &mut Vec<FoundCell>, cell: FoundCell) -> Result<(), PlainFault>
    ensures { MatchResult result (λ _. found.new.items ≡ found.old.items ++ cell ∷ []) (λ fault. fault ≡ PlainFault.OutOfMemory) }
{
    match found.push(cell) {
        Ok(()) => Ok(()),
        Err(_) => Err(PlainFault::OutOfMemory),
    }
}

// Tries one choice, and appends it where it is a mixed cell.
pub(crate) fn try_choice<L: Ledger>(
    alloc: Global,
    problem: &Problem,
    pairs: &[(u32, u32)],
    steps: &mut Steps<L>,
    found: &mut Vec<FoundCell>,
) -> Result<(), PlainFault>
    requires valid { IsValidProblem problem.now }
    requires still { IsStill problem.now }
    requires alone { HasNoCorners problem.now }
    requires of { IsOf problem.now pairs.now }
    requires done { IsDone problem.now (Before pairs.now) found.old.items }
    ensures { MatchResult result (λ _. IsDone problem.now (UpTo pairs.now) found.new.items) (IsUnfitAt problem.now pairs.now) }
{
    let Some(cell) = Cell::new(alloc, pairs) else {
        unreachable!();
    };
    match judge(alloc, problem, &cell, steps) {
        Ok(None) => Ok(()),
        Ok(Some(normal)) => keep(found, FoundCell { cell, normal }),
        Err(FromFault::Overflow) => Err(PlainFault::Overflow { cell }),
        Err(FromFault::OutOfMemory) => Err(PlainFault::OutOfMemory),
    }
}
