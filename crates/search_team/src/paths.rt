//! Several searchers on the path of a file.
ghost use Rattle.std.specs.Prelude.{◌≡◌, ◌≤◌, [], ◌∷◌, IfOk, MatchResult};
ghost use Rattle.cayley.specs.Paths.{start_cell};
ghost use Rattle.branch_pool.specs.declared.rule.TheConstants.{SEATS};
ghost use Rattle.start_system.specs.Started.{IsStarted};
ghost use Rattle.search_team.specs.PathSearches.{IsWalked, IsHalted};

use crate::team::search_shared;
use cayley::{Begin, Problem};
use edge_io::Gate;
use searcher::{Branch, Found, HaltCause};
use start_system::start_cell;
use std::alloc::Global;
use std::sync::Wait;
use std::thread::Threads;
use wide_int::OutOfMemory;

// The start branch alone.
fn start_branches(alloc: Global, problem: &Problem) -> Result<Vec<Branch>, OutOfMemory>
    requires { IsStarted problem.now }
    ensures { IfOk result (λ made. made.items ≡ record { cell = start_cell problem.now; begin = Begin.Start } ∷ []) }
{
    let Ok(mut made) = Vec::with_capacity(alloc, 1) else {
        return Err(OutOfMemory);
    };
    made.push_reserved(Branch::new(start_cell(alloc, problem), Begin::Start));
    Ok(made)
}

/// Searches a path from its start branch by 1 to [`SEATS`](branch_pool::SEATS) searchers: the mixed
/// cells to which the path leads in cell order, and how many cells of the path tree there are.
pub fn search_together<G: Gate, R: Threads + Wait + Sync>(
    rt: &R,
    alloc: Global,
    problem: &Problem,
    searchers: u32,
    gate: &G,
) -> Result<Found, HaltCause>
    requires seats { (1 ≤ searchers) × (searchers ≤ SEATS) }
    requires started { IsStarted problem.now }
    ensures { MatchResult result (IsWalked problem.now) (IsHalted problem.now) }
{
    // A problem is valid by its type, as its readers tell.
    let _dim = problem.dim();
    let Ok(branches) = start_branches(alloc, problem) else {
        return Err(HaltCause::OutOfMemory);
    };
    match search_shared(rt, alloc, problem, branches, searchers, gate) {
        Ok(found) => Ok(found),
        Err(stopped) => Err(stopped.cause),
    }
}
