ghost use Rattle.std.specs.Prelude.{◌≡◌, ◌↔◌, ◌+◌, IfErr, MatchResult};
ghost use Rattle.cayley.specs.Problems.{IsStill};
ghost use Rattle.cayley.specs.Cells.{IsOf};
ghost use Rattle.cayley.specs.Ties.{IsTieFree};
ghost use Rattle.searcher.specs.Expansions.{Kind, IsOfKind, IsAnswer, HasAnswer, IsExpansion, IsHalt, ShowsTieAtEnd, HasNoTie};

use crate::branches::Branch;
use crate::settling::expanded;
use cayley::{Cell, FoundCell, Problem, TieProof};
use cone_walls::Steps;
use std::alloc::Global;
use std::sync::ledger::Ledger;

/// The branches that a cell keeps where it ends, in cell order.
#[derive(Drop)]
pub enum Children {
    None,
    One(Branch),
    Two(Branch, Branch),
}

/// What a branch is expanded to.
#[derive(Drop)]
pub enum Expansion {
    /// The cell ends: the cells whose parent it is, each with the time at which it begins.
    Inner { children: Children },
    /// The cell never ends and has file points alone: a mixed cell of the target, with its normal
    /// in lowest terms.
    Target(FoundCell),
    /// The cell never ends and has a corner.
    Endless,
    /// The problem doesn't contain the cell, or it doesn't begin where the branch says.
    Stranger { branch: Branch },
}

/// Why a branch wasn't expanded.
#[derive(Drop)]
pub enum HaltCause {
    /// Two points are level where the cell begins, or else where it ends.
    Tie(TieProof),
    /// A number of the cell's working doesn't fit.
    Overflow { cell: Cell },
    OutOfMemory,
}

/// An expansion that was refused, with the branch as it was given.
#[derive(Drop)]
pub struct Halt {
    pub cause: HaltCause,
    pub branch: Branch,
}

// The expansion of a branch, which comes back where it is a stranger or was refused.
fn answered<L: Ledger>(
    alloc: Global,
    problem: &Problem,
    branch: Branch,
    steps: &mut Steps<L>,
) -> Result<Expansion, Halt>
    requires still { IsStill problem.now }
    ensures answer { MatchResult result (IsExpansion problem.now branch) (IsHalt problem.now branch) }
    ensures step { IsOf problem.now branch.cell → steps.new ≡ steps.old + 1 }
    ensures no_step { ¬ (IsOf problem.now branch.cell) → steps.new ≡ steps.old }
{
    match expanded(alloc, problem, &branch, steps) {
        Ok(Some(expansion)) => Ok(expansion),
        Ok(None) => Ok(Expansion::Stranger { branch }),
        Err(cause) => Err(Halt { cause, branch }),
    }
}

/// Expands a branch of a problem whose file points rest (the flips of Jensen 2016, each new cell
/// kept under one parent after Avis and Fukuda 1996).
///
/// The answers are tried in this order, and the first that applies is given: `Stranger` where the
/// problem doesn't contain the cell; `Overflow` where a number of its working doesn't fit, the
/// circuits of all further points among them; `Stranger` where the cell doesn't begin where the
/// branch says; `Tie` where two further points are level where it begins, or else where it ends;
/// `Target` or `Endless` where it never ends; else `Inner`. A halt hands the branch back. Each call
/// on a cell that the problem contains is a step.
pub fn expand<L: Ledger>(
    alloc: Global,
    problem: &Problem,
    branch: Branch,
    steps: &mut Steps<L>,
) -> Result<Expansion, Halt>
    requires still { IsStill problem.now }
    ensures answer { MatchResult result (IsExpansion problem.now branch) (IsHalt problem.now branch) }
    // Each answer comes exactly where its cause is, unless there is no memory.
    ensures exactly { HasAnswer result → (kind : Kind) → IsAnswer kind result ↔ IsOfKind problem.now branch kind }
    // A tie is one where the cell begins or ends, and none comes where no cell has a tie.
    ensures tie { IfErr result (λ halt. ShowsTieAtEnd problem.now halt.cause) }
    ensures untied { IsTieFree problem.now → IfErr result (λ halt. HasNoTie halt.cause) }
    ensures step { IsOf problem.now branch.cell → steps.new ≡ steps.old + 1 }
    ensures no_step { ¬ (IsOf problem.now branch.cell) → steps.new ≡ steps.old }
{
    // A problem is valid by its type, as its readers tell.
    let _dim = problem.dim();
    answered(alloc, problem, branch, steps)
}
