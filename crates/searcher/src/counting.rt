//! How many mixed cells a search finds, where the cells themselves aren't wanted.
ghost use Rattle.std.specs.Prelude.{◌≡◌, ◌+◌, ◌≤◌, ◌++◌, ℕ, IfOk, IfErr, MatchResult, length, min, vec_len, vec_capacity};
ghost use Rattle.cayley.specs.Problems.{IsStill};
ghost use Rattle.cayley.specs.Ties.{IsTieFree};
ghost use Rattle.searcher.specs.Expansions.{ShowsTieAtEnd, HasNoTie};
ghost use Rattle.searcher.specs.Searches.{IsCount, top};
ghost use Rattle.searcher.specs.Turns.{list_of};
ghost use Rattle.searcher.specs.Counts.{IsCounted, IsBehind, CountsShare, CountsSize};

use crate::branches::Branch;
use crate::expansions::HaltCause;
use crate::searching::count_after;
use crate::turning::turn;
use crate::walks::Walk;
use cayley::{FoundCell, Problem};
use cone_walls::Steps;
use std::alloc::Global;
use std::sync::ledger::Ledger;

/// How many mixed cells a search found, and how many cells it solved. Each stands at 2^64 - 1 once
/// it would exceed it.
#[derive(Drop)]
pub struct Counted {
    pub cells: u64,
    pub solves: u64,
}

// The count of cells, with a mixed cell that was found.
fn cells_after(cells: u64, found: Option<FoundCell>) -> u64
    ensures { (m : ℕ) → cells ≡ min m top → result ≡ min (m + length (list_of found)) top }
{
    match found {
        Some(_found) => cells.saturating_add(1),
        None => cells,
    }
}

/// Counts what [`search_alone`](crate::search_alone) finds on the same branches. It keeps no cell
/// that it found, so its memory is that of the branches that are still to be expanded. What was
/// counted before a halt isn't told.
pub fn count_alone<L: Ledger>(
    alloc: Global,
    problem: &Problem,
    branches: Vec<Branch>,
    steps: &mut Steps<L>,
) -> Result<Counted, HaltCause>
    requires still { IsStill problem.now }
    ensures answer { MatchResult result (IsCounted problem.now branches.items) (IsBehind problem.now branches.items) }
    // Of one branch the cells are those of its share, and the steps are its size.
    ensures share { IfOk result (CountsShare problem.now branches.items) }
    ensures size { IfOk result (CountsSize problem.now branches.items) }
    ensures counted { IfOk result (λ c. IsCount steps.old steps.new c.solves) }
    // A tie is one where its cell begins or ends, and none comes where no cell has a tie.
    ensures tie { IfErr result (ShowsTieAtEnd problem.now) }
    ensures untied { IsTieFree problem.now → IfErr result HasNoTie }
{
    let _dim = problem.dim();
    let mut left = branches;
    let mut walk = Walk::begin(problem, left.len());
    let mut cells = 0;
    let mut solves = 0;
    while let Some(branch) = left.pop() {
        let count = left.len();
        if left.reserve(2).is_err() {
            return Err(HaltCause::OutOfMemory);
        }
        solves = count_after(problem, &branch, solves);
        match turn(&mut walk, alloc, problem, &branch, count, &mut left, steps) {
            Ok(found) => cells = cells_after(cells, found),
            Err(cause) => return Err(cause),
        }
    }
    Ok(Counted { cells, solves })
}
