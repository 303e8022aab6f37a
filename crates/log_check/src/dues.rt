// The branches that are due, the next of them last, and the cells that are expected.
ghost use Rattle.std.specs.Prelude.{◌≡◌, ◌+◌, ◌≤◌, ◌++◌, [], ◌∷◌, IfOk, IsTrue, IsPermutation, MatchResult, None, Some, reverse, vec_len, vec_capacity};
ghost use Rattle.cayley.specs.Paths as paths;
ghost use Rattle.cayley.specs.Stored.{cells_of};
ghost use Rattle.start_system.specs.Started.{IsStarted};
ghost use Rattle.searcher.specs.Branches.{children_of};
ghost use Rattle.searcher.specs.Searches.{NeverFalls};
ghost use Rattle.searcher.specs.declared.branches.Branch.{Branch};
ghost use Rattle.log_check.specs.Dues.{cells_due, refusal_of, opened_by, found_by};
ghost use Rattle.log_check.specs.Verdicts.{IsNext};

use crate::judgement::Judgement;
use crate::refusal::Refusal;
use cayley::{Begin, Cell, FoundCell, Problem};
use searcher::{Branch, Children};
use start_system::start_cell;
use std::alloc::Global;
use wide_int::OutOfMemory;

/// The branch of the start cell alone.
pub(crate) fn start_branches(alloc: Global, problem: &Problem) -> Result<Vec<Branch>, OutOfMemory>
    requires { IsStarted problem.now }
    ensures { IfOk result (λ made. made.items ≡ record { cell = paths.start_cell problem.now; begin = Begin.Start } ∷ []) }
{
    let Ok(mut made) = Vec::with_capacity(alloc, 1) else {
        return Err(OutOfMemory);
    };
    made.push_reserved(Branch::new(start_cell(alloc, problem), Begin::Start));
    Ok(made)
}

/// Room for two branches and a cell.
pub(crate) fn has_room(due: &mut Vec<Branch>, expected: &mut Vec<FoundCell>) -> bool
    ensures due { due.new.items ≡ due.old.items }
    ensures expected { expected.new.items ≡ expected.old.items }
    ensures branches { IsTrue result → vec_len due.new + 2 ≤ vec_capacity due.new }
    ensures cell { IsTrue result → vec_len expected.new + 1 ≤ vec_capacity expected.new }
{
    due.reserve(2).is_ok() && expected.reserve(1).is_ok()
}

/// Takes the next branch away, if it is that of the cell.
pub(crate) fn takes_next(due: &mut Vec<Branch>, cell: &Cell) -> bool
    ensures taken { IsTrue result → (branch : Branch) × (due.old.items ≡ due.new.items ++ branch ∷ []) × (branch.cell ≡ cell.now) }
    ensures other { ¬ (IsTrue result) → ¬ (IsNext cell.now (cells_due due.old.items)) }
{
    match due.pop() {
        Some(next) => next.cell().cmp(cell).is_eq(),
        None => false,
    }
}

// Puts the children at the end, the first of them last.
fn put_children(due: &mut Vec<Branch>, children: Children)
    requires { vec_len due.old + 2 ≤ vec_capacity due.old }
    ensures { due.new.items ≡ due.old.items ++ reverse (children_of children) }
{
    match children {
        Children::None => {}
        Children::One(first) => due.push_reserved(first),
        Children::Two(first, second) => {
            due.push_reserved(second);
            due.push_reserved(first);
        }
    }
}

/// Puts what a judgement opens among the branches and the cells, or tells what it says against the
/// node.
pub(crate) fn put(
    due: &mut Vec<Branch>,
    expected: &mut Vec<FoundCell>,
    judgement: Judgement,
) -> Result<(), Refusal>
    requires branches { vec_len due.old + 2 ≤ vec_capacity due.old }
    requires cell { vec_len expected.old + 1 ≤ vec_capacity expected.old }
    ensures refusal { MatchResult result (λ done. refusal_of judgement ≡ None) (λ refusal. refusal_of judgement ≡ Some refusal) }
    ensures due { due.new.items ≡ due.old.items ++ reverse (opened_by judgement) }
    ensures expected { expected.new.items ≡ expected.old.items ++ found_by judgement }
{
    match judgement {
        Judgement::Unfit => Err(Refusal::Unfit),
        Judgement::NotInverse => Err(Refusal::NotInverse),
        Judgement::Tied => Err(Refusal::Tied),
        Judgement::Inner { children } => {
            put_children(due, children);
            Ok(())
        }
        Judgement::Endless => Ok(()),
        Judgement::Target(found) => {
            expected.push_reserved(found);
            Ok(())
        }
    }
}

/// Puts the cells into cell order, in place.
pub(crate) fn put_in_order(expected: &mut Vec<FoundCell>)
    ensures order { NeverFalls (cells_of expected.new.items) }
    ensures same { IsPermutation expected.old.items expected.new.items }
{
    expected.sort_unstable_by(|x, y| x.cell.cmp(&y.cell));
}
