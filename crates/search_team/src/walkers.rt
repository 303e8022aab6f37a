//! What a searcher of a team carries from branch to branch.
ghost use Rattle.std.specs.Prelude.{◌≡◌, ◌≢◌, IfErr, IsTrue, MatchResult};
ghost use Rattle.std.specs.List.{All};
ghost use Rattle.cayley.specs.Problems.{IsStill};
ghost use Rattle.cayley.specs.Ties.{IsTieFree};
ghost use Rattle.cayley.specs.declared.found.Begin.TheVariants.{Start};
ghost use Rattle.searcher.specs.Expansions.{IsExpansion, IsHalt, ShowsTieAtEnd, HasNoTie};
ghost use Rattle.searcher.specs.Walks.{IsWalk};
ghost use Rattle.search_team.specs.Walkers.{IsReady};

use crate::steps::{expand_made_once, expand_once};
use cayley::{Begin, Problem};
use searcher::{Branch, Expansion, Halt, Walk};
use std::alloc::Global;

/// A branch that a searcher took, and whether it had offered it itself.
#[derive(Drop)]
pub struct Taken {
    pub branch: Branch,
    pub own: bool,
}

/// A searcher's walk, and whether all given branches begin at the start. If they do, a branch that
/// begins at a time was opened by this team.
#[derive(Drop)]
pub struct Walker {
    pub walk: Walk,
    pub from_start: bool,
}

fn at_start(branch: &Branch) -> bool
    ensures { IsTrue result → branch.now.begin ≡ Start }
{
    matches!(branch.begin(), Begin::Start)
}

/// Whether all of these branches begin at the start.
pub fn all_start(branches: &[Branch]) -> bool
    ensures { IsTrue result → All (λ b. b.begin ≡ Start) branches.now }
{
    branches.iter().all(|branch| at_start(branch))
}

fn is_later(branch: &Branch) -> bool
    ensures { IsTrue result → branch.now.begin ≢ Start }
{
    matches!(branch.begin(), Begin::At(_))
}

impl Walker {
    /// What a branch is expanded to: by the walk where this searcher opened it, and else by an
    /// elimination.
    pub fn expanded(
        &mut self,
        alloc: Global,
        problem: &Problem,
        taken: Taken,
    ) -> Result<Expansion, Halt>
        requires still { IsStill problem.now }
        requires walk { IsWalk problem.now self.old.walk }
        requires ready { IsTrue self.old.from_start → IsTrue taken.own → IsReady problem.now taken.branch }
        ensures walk { IsWalk problem.now self.new.walk }
        ensures same { self.new.from_start ≡ self.old.from_start }
        ensures answer { MatchResult result (IsExpansion problem.now taken.branch) (IsHalt problem.now taken.branch) }
        ensures tie { IfErr result (λ halt. ShowsTieAtEnd problem.now halt.cause) }
        ensures untied { IsTieFree problem.now → IfErr result (λ halt. HasNoTie halt.cause) }
    {
        let Taken { branch, own } = taken;
        if self.from_start && own && is_later(&branch) {
            expand_made_once(alloc, problem, &mut self.walk, branch)
        } else {
            expand_once(alloc, problem, branch)
        }
    }
}
