// The walk of one searcher along the path of a file, which keeps what it finds or counts it.
ghost use Rattle.std.specs.Prelude.{◌≡◌, ◌<◌, ◌∷◌, [], IfOk, IfErr, MatchResult};
ghost use Rattle.int_vectors.specs.Vectors.{Each};
ghost use Rattle.cayley.specs.Problems.{IsStill};
ghost use Rattle.cayley.specs.Paths.{start_cell};
ghost use Rattle.cayley.specs.Ties.{IsTieFree};
ghost use Rattle.start_system.specs.Started.{IsStarted, IsSearched};
ghost use Rattle.searcher.specs.Expansions.{ShowsTieAtEnd, HasNoTie};
ghost use Rattle.searcher.specs.Workings.{FitsWorking};
ghost use Rattle.searcher.specs.Searches.{IsFound, IsStopped, FindsShare, FindsSize};
ghost use Rattle.searcher.specs.Counts.{IsCounted, IsBehind, CountsShare, CountsSize};
ghost use Rattle.search_team.specs.PathSearches.{IsWalked, IsHalted};
ghost use Rattle.mixedcells.specs.Journeys.{HasWalked, HasCounted, HasHalted, IsPathCount};

use cayley::{Begin, LiftFile, Problem};
use cone_walls::Steps;
use searcher::{Branch, Counted, Found, HaltCause, Stopped, count_alone, search_alone};
use start_system::{start_cell, with_corners};
use std::alloc::Global;
use std::marker::Brand;
use std::sync::ledger::{Blank, Ledger};
use wide_int::OutOfMemory;

// The start branch alone.
fn start_branches(alloc: Global, problem: &Problem) -> Result<Vec<Branch>, OutOfMemory>
    requires { IsStarted problem.now }
    ensures { IfOk result (λ made. made.items ≡ record { cell = start_cell problem.now; begin = Begin.Start } ∷ []) }
{
    let mut made = Vec::new(alloc);
    let branch = Branch::new(start_cell(alloc, problem), Begin::Start);
    match made.push(branch) {
        Ok(()) => Ok(made),
        Err(_) => Err(OutOfMemory),
    }
}

// Searches from these branches, by a counter of its own.
fn search_by<L: Ledger>(
    alloc: Global,
    problem: &Problem,
    branches: Vec<Branch>,
    blank: Blank,
) -> Result<Found, Stopped>
    requires ledger { (blank.name ≡ L.name) × (blank.parts ≡ L.parts) × (0 < blank.parts) }
    requires still { IsStill problem.now }
    ensures answer { MatchResult result (IsFound problem.now branches.items) (IsStopped problem.now branches.items) }
    ensures share { IfOk result (FindsShare problem.now branches.items) }
    ensures size { IfOk result (FindsSize problem.now branches.items) }
    ensures fit { IfOk result (λ f. Each f.cells.items (λ x. FitsWorking problem.now x.cell)) }
    ensures tie { IfErr result (λ s. ShowsTieAtEnd problem.now s.cause) }
    ensures untied { IsTieFree problem.now → IfErr result (λ s. HasNoTie s.cause) }
{
    let mut steps = Steps::<L>::new(blank);
    search_alone(alloc, problem, branches, &mut steps)
}

// Searches from the start branch of a path.
fn search_path(alloc: Global, problem: &Problem) -> Result<Found, HaltCause>
    requires started { IsStarted problem.now }
    requires still { IsStill problem.now }
    requires searched { IsSearched problem.now }
    ensures { MatchResult result (IsWalked problem.now) (IsHalted problem.now) }
{
    let _dim = problem.dim();
    let Ok(branches) = start_branches(alloc, problem) else {
        return Err(HaltCause::OutOfMemory);
    };
    match search_by::<Brand>(alloc, problem, branches, Blank::new(1)) {
        Ok(found) => Ok(found),
        Err(stopped) => Err(stopped.cause),
    }
}

/// Walks along the path of a file from its start cell: the mixed cells to which the path leads in
/// cell order, and how many cells of the path tree there are.
pub fn walk(alloc: Global, file: &LiftFile) -> Result<Found, HaltCause>
    ensures { MatchResult result (HasWalked file.now) (HasHalted file.now) }
{
    let _dim = file.dim();
    let Ok(problem) = with_corners(alloc, file) else {
        return Err(HaltCause::OutOfMemory);
    };
    search_path(alloc, &problem)
}

// Counts from these branches, by a counter of its own.
fn count_by<L: Ledger>(
    alloc: Global,
    problem: &Problem,
    branches: Vec<Branch>,
    blank: Blank,
) -> Result<Counted, HaltCause>
    requires ledger { (blank.name ≡ L.name) × (blank.parts ≡ L.parts) × (0 < blank.parts) }
    requires still { IsStill problem.now }
    ensures answer { MatchResult result (IsCounted problem.now branches.items) (IsBehind problem.now branches.items) }
    ensures share { IfOk result (CountsShare problem.now branches.items) }
    ensures size { IfOk result (CountsSize problem.now branches.items) }
    ensures tie { IfErr result (ShowsTieAtEnd problem.now) }
    ensures untied { IsTieFree problem.now → IfErr result HasNoTie }
{
    let mut steps = Steps::<L>::new(blank);
    count_alone(alloc, problem, branches, &mut steps)
}

// Counts from the start branch of a path.
fn count_path(alloc: Global, problem: &Problem) -> Result<Counted, HaltCause>
    requires started { IsStarted problem.now }
    requires still { IsStill problem.now }
    requires searched { IsSearched problem.now }
    ensures { MatchResult result (IsPathCount problem.now) (IsHalted problem.now) }
{
    let _dim = problem.dim();
    let Ok(branches) = start_branches(alloc, problem) else {
        return Err(HaltCause::OutOfMemory);
    };
    count_by::<Brand>(alloc, problem, branches, Blank::new(1))
}

/// Walks along the path of a file from its start cell as [`walk`] does, and keeps no cell that it
/// finds: how many there are, and how many cells of the path tree.
pub fn walk_counting(alloc: Global, file: &LiftFile) -> Result<Counted, HaltCause>
    ensures { MatchResult result (HasCounted file.now) (HasHalted file.now) }
{
    let _dim = file.dim();
    let Ok(problem) = with_corners(alloc, file) else {
        return Err(HaltCause::OutOfMemory);
    };
    count_path(alloc, &problem)
}
