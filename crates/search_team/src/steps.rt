//! Expansions and searches by a counter of their own, which is thrown away.
ghost use Rattle.std.specs.Prelude.{◌≡◌, ◌<◌, IfErr, IfOk, MatchResult};
ghost use Rattle.int_vectors.specs.Vectors.{Each};
ghost use Rattle.cayley.specs.Problems.{IsStill};
ghost use Rattle.cayley.specs.Shares.{Solved};
ghost use Rattle.cayley.specs.Ties.{IsTieFree};
ghost use Rattle.searcher.specs.Branches.{branch_of};
ghost use Rattle.searcher.specs.Expansions.{IsExpansion, IsHalt, ShowsTieAtEnd, HasNoTie};
ghost use Rattle.searcher.specs.Workings.{FitsWorking};
ghost use Rattle.searcher.specs.Searches.{IsFound, IsStopped, top};
ghost use Rattle.searcher.specs.Walks.{IsMade, IsWalk};

use cayley::Problem;
use cone_walls::Steps;
use searcher::{Branch, Expansion, Found, Halt, Stopped, Walk, expand, search_alone};
use std::alloc::Global;
use std::marker::Brand;
use std::sync::ledger::{Blank, Ledger};

fn expand_by<L: Ledger>(
    alloc: Global,
    problem: &Problem,
    branch: Branch,
    blank: Blank,
) -> Result<Expansion, Halt>
    requires ledger { (blank.name ≡ L.name) × (blank.parts ≡ L.parts) × (0 < blank.parts) }
    requires still { IsStill problem.now }
    ensures answer { MatchResult result (IsExpansion problem.now branch) (IsHalt problem.now branch) }
    ensures tie { IfErr result (λ halt. ShowsTieAtEnd problem.now halt.cause) }
    ensures untied { IsTieFree problem.now → IfErr result (λ halt. HasNoTie halt.cause) }
{
    let mut steps = Steps::<L>::new(blank);
    expand(alloc, problem, branch, &mut steps)
}

/// What a branch is expanded to.
pub fn expand_once(alloc: Global, problem: &Problem, branch: Branch) -> Result<Expansion, Halt>
    requires still { IsStill problem.now }
    ensures answer { MatchResult result (IsExpansion problem.now branch) (IsHalt problem.now branch) }
    ensures tie { IfErr result (λ halt. ShowsTieAtEnd problem.now halt.cause) }
    ensures untied { IsTieFree problem.now → IfErr result (λ halt. HasNoTie halt.cause) }
{
    expand_by::<Brand>(alloc, problem, branch, Blank::new(1))
}

fn expand_made_by<L: Ledger>(
    alloc: Global,
    problem: &Problem,
    walk: &mut Walk,
    branch: Branch,
    blank: Blank,
) -> Result<Expansion, Halt>
    requires ledger { (blank.name ≡ L.name) × (blank.parts ≡ L.parts) × (0 < blank.parts) }
    requires still { IsStill problem.now }
    requires walk { IsWalk problem.now walk.old }
    requires made { IsMade problem.now branch }
    ensures walk { IsWalk problem.now walk.new }
    ensures answer { MatchResult result (IsExpansion problem.now branch) (IsHalt problem.now branch) }
    ensures tie { IfErr result (λ halt. ShowsTieAtEnd problem.now halt.cause) }
    ensures untied { IsTieFree problem.now → IfErr result (λ halt. HasNoTie halt.cause) }
{
    let mut steps = Steps::<L>::new(blank);
    walk.expand_made(alloc, problem, branch, &mut steps)
}

/// The same of a branch that an expansion of this team opened, by a searcher's walk.
pub fn expand_made_once(
    alloc: Global,
    problem: &Problem,
    walk: &mut Walk,
    branch: Branch,
) -> Result<Expansion, Halt>
    requires still { IsStill problem.now }
    requires walk { IsWalk problem.now walk.old }
    requires made { IsMade problem.now branch }
    ensures walk { IsWalk problem.now walk.new }
    ensures answer { MatchResult result (IsExpansion problem.now branch) (IsHalt problem.now branch) }
    ensures tie { IfErr result (λ halt. ShowsTieAtEnd problem.now halt.cause) }
    ensures untied { IsTieFree problem.now → IfErr result (λ halt. HasNoTie halt.cause) }
{
    expand_made_by::<Brand>(alloc, problem, walk, branch, Blank::new(1))
}

fn search_by<L: Ledger>(
    alloc: Global,
    problem: &Problem,
    branches: Vec<Branch>,
    blank: Blank,
) -> Result<Found, Stopped>
    requires ledger { (blank.name ≡ L.name) × (blank.parts ≡ L.parts) × (0 < blank.parts) }
    requires still { IsStill problem.now }
    ensures answer { MatchResult result (IsFound problem.now branches.items) (IsStopped problem.now branches.items) }
    ensures fit { IfOk result (λ f. Each f.cells.items (λ x. FitsWorking problem.now x.cell)) }
    ensures tie { IfErr result (λ s. ShowsTieAtEnd problem.now s.cause) }
    ensures untied { IsTieFree problem.now → IfErr result (λ s. HasNoTie s.cause) }
{
    let mut steps = Steps::<L>::new(blank);
    search_alone(alloc, problem, branches, &mut steps)
}

/// The search of one searcher alone.
pub fn search_once(
    alloc: Global,
    problem: &Problem,
    branches: Vec<Branch>,
) -> Result<Found, Stopped>
    requires still { IsStill problem.now }
    ensures answer { MatchResult result (IsFound problem.now branches.items) (IsStopped problem.now branches.items) }
    ensures fit { IfOk result (λ f. Each f.cells.items (λ x. FitsWorking problem.now x.cell)) }
    ensures tie { IfErr result (λ s. ShowsTieAtEnd problem.now s.cause) }
    ensures untied { IsTieFree problem.now → IfErr result (λ s. HasNoTie s.cause) }
{
    search_by::<Brand>(alloc, problem, branches, Blank::new(1))
}

/// The count of solves after an expansion of the branch.
pub fn count_after(problem: &Problem, branch: &Branch, solves: u64) -> u64
    ensures { Solved problem.now top (branch_of branch.now) solves result }
{
    if problem.contains(branch.cell()) {
        solves.saturating_add(1)
    } else {
        solves
    }
}
