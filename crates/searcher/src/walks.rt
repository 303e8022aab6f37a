ghost use Rattle.std.specs.Prelude.{◌≡◌, ◌↔◌, ◌+◌, ◌≤◌, min, IfErr, IfSome, IsTrue, MatchResult};
ghost use Rattle.cayley.specs.Cells.{IsOf};
ghost use Rattle.cayley.specs.Problems.{IsStill};
ghost use Rattle.cayley.specs.Ties.{IsTieFree};
ghost use Rattle.searcher.specs.Expansions.{Kind, IsOfKind, IsAnswer, HasAnswer, IsExpansion, IsHalt, ShowsTieAtEnd, HasNoTie};
ghost use Rattle.searcher.specs.Walks.{IsCarried, IsLast, IsMade, IsWalk};

use crate::branches::Branch;
use crate::endings::{ended_by, seek};
use crate::expansions::{Expansion, Halt};
use crate::lasts::{Last, reach};
use crate::tables::expand_kept;
use cayley::Problem;
use cell_bound::every_cell_fits;
use cone_walls::{Kept, Steps};
use std::alloc::Global;
use std::mem;
use std::sync::ledger::Ledger;

/// What a searcher keeps beside its branches: the inverse of the cell that it expanded last, from
/// which the next one is reached by exchanges. Where `cell_bound::every_cell_fits` tells of a
/// problem of version 1 that the working of each cell fits, a branch that an expansion opened is
/// expanded with no elimination, and its entry isn't formed. All others are eliminated, each from the
/// table of the one before it.
#[derive(Drop)]
pub struct Walk {
    // Whether the working of each cell fits, and the heights have no infinitesimals.
    pub(crate) carries: bool,
    // No fewer than the given branches that are left, where a search counts them. They stand first,
    // and are expanded by an elimination.
    pub(crate) given: usize,
    pub(crate) last: Option<Last>,
    // The table of the cell that was eliminated last.
    pub(crate) kept: Kept,
}

fn carries(problem: &Problem) -> bool
    ensures { IsTrue result → IsCarried problem.now }
{
    problem.version() == 1 && every_cell_fits(problem)
}

pub(crate) fn lesser(a: usize, b: usize) -> usize
    ensures { result ≡ min a b }
{
    if a < b { a } else { b }
}

// The expansion of a branch that the search made.
fn carried_on<L: Ledger>(
    alloc: Global,
    problem: &Problem,
    branch: Branch,
    last: &mut Option<Last>,
    kept: &mut Kept,
    steps: &mut Steps<L>,
) -> Result<Expansion, Halt>
    requires still { IsStill problem.now }
    requires carries { IsCarried problem.now }
    requires made { IsMade problem.now branch }
    requires last { IfSome last.old (IsLast problem.now) }
    ensures last { IfSome last.new (IsLast problem.now) }
    ensures answer { MatchResult result (IsExpansion problem.now branch) (IsHalt problem.now branch) }
    ensures step { IsOf problem.now branch.cell → steps.new ≡ steps.old + 1 }
{
    let Some(reached) = reach(alloc, problem, branch.cell(), mem::replace(last, None)) else {
        return expand_kept(alloc, problem, branch, kept, steps);
    };
    let Some(sought) = seek(alloc, problem, &reached, steps) else {
        return expand_kept(alloc, problem, branch, kept, steps);
    };
    let normal = sought.normal;
    let answer = ended_by(alloc, problem, &branch, &reached, normal, &sought.front);
    *last = Some(reached);
    match answer {
        Ok(expansion) => Ok(expansion),
        Err(cause) => Err(Halt { cause, branch }),
    }
}

impl Walk {
    /// A walk that has expanded no cell yet.
    pub fn new(problem: &Problem) -> Walk
        ensures { IsWalk problem.now result }
    {
        Walk::begin(problem, 0)
    }

    /// Expands a branch that an expansion of this problem opened, by whichever walk. The answers are
    /// those of [`expand`](crate::expand).
    pub fn expand_made<L: Ledger>(
        &mut self,
        alloc: Global,
        problem: &Problem,
        branch: Branch,
        steps: &mut Steps<L>,
    ) -> Result<Expansion, Halt>
        requires still { IsStill problem.now }
        requires walk { IsWalk problem.now self.old }
        requires made { IsMade problem.now branch }
        ensures walk { IsWalk problem.now self.new }
        ensures answer { MatchResult result (IsExpansion problem.now branch) (IsHalt problem.now branch) }
        ensures exactly { HasAnswer result → (kind : Kind) → IsAnswer kind result ↔ IsOfKind problem.now branch kind }
        ensures tie { IfErr result (λ halt. ShowsTieAtEnd problem.now halt.cause) }
        ensures untied { IsTieFree problem.now → IfErr result (λ halt. HasNoTie halt.cause) }
        ensures step { IsOf problem.now branch.cell → steps.new ≡ steps.old + 1 }
        ensures no_step { ¬ (IsOf problem.now branch.cell) → steps.new ≡ steps.old }
    {
        let count = self.given;
        self.expansion_of(alloc, problem, branch, count, steps)
    }

    // A walk from this many given branches.
    pub(crate) fn begin(problem: &Problem, given: usize) -> Walk
        ensures walk { IsWalk problem.now result }
        ensures given { result.given ≡ given }
    {
        Walk {
            carries: carries(problem),
            given,
            last: None,
            kept: Kept::new(),
        }
    }

    // The expansion of a branch that stood behind `count` others.
    fn answer_of<L: Ledger>(
        &mut self,
        alloc: Global,
        problem: &Problem,
        branch: Branch,
        count: usize,
        steps: &mut Steps<L>,
    ) -> Result<Expansion, Halt>
        requires still { IsStill problem.now }
        requires walk { IsWalk problem.now self.old }
        requires made { self.old.given ≤ count → IsMade problem.now branch }
        ensures walk { IsWalk problem.now self.new }
        ensures given { self.new.given ≡ min self.old.given count }
        ensures answer { MatchResult result (IsExpansion problem.now branch) (IsHalt problem.now branch) }
        ensures step { IsOf problem.now branch.cell → steps.new ≡ steps.old + 1 }
        ensures no_step { ¬ (IsOf problem.now branch.cell) → steps.new ≡ steps.old }
    {
        let made = self.given <= count;
        self.given = lesser(self.given, count);
        if made && self.carries {
            carried_on(
                alloc,
                problem,
                branch,
                &mut self.last,
                &mut self.kept,
                steps,
            )
        } else {
            expand_kept(alloc, problem, branch, &mut self.kept, steps)
        }
    }

    // The same with what `expand` says of ties.
    pub(crate) fn expansion_of<L: Ledger>(
        &mut self,
        alloc: Global,
        problem: &Problem,
        branch: Branch,
        count: usize,
        steps: &mut Steps<L>,
    ) -> Result<Expansion, Halt>
        requires still { IsStill problem.now }
        requires walk { IsWalk problem.now self.old }
        requires made { self.old.given ≤ count → IsMade problem.now branch }
        ensures walk { IsWalk problem.now self.new }
        ensures given { self.new.given ≡ min self.old.given count }
        ensures answer { MatchResult result (IsExpansion problem.now branch) (IsHalt problem.now branch) }
        ensures tie { IfErr result (λ halt. ShowsTieAtEnd problem.now halt.cause) }
        ensures untied { IsTieFree problem.now → IfErr result (λ halt. HasNoTie halt.cause) }
        ensures step { IsOf problem.now branch.cell → steps.new ≡ steps.old + 1 }
        ensures no_step { ¬ (IsOf problem.now branch.cell) → steps.new ≡ steps.old }
    {
        // A problem is valid by its type, as its readers tell.
        let _dim = problem.dim();
        self.answer_of(alloc, problem, branch, count, steps)
    }
}
