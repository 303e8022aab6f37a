//! Several searchers on given branches.
ghost use Rattle.std.specs.Prelude.{◌≡◌, ◌≤◌, [], None, IfOk, IfErr, MatchResult, length, slice_index_or, ℕ, ◌<◌};
ghost use Rattle.std.specs.List.{All};
ghost use Rattle.int_vectors.specs.Vectors.{Each};
ghost use Rattle.cayley.specs.Problems.{IsStill};
ghost use Rattle.cayley.specs.Ties.{IsTieFree};
ghost use Rattle.branch_pool.specs.declared.rule.TheConstants.{SEATS};
ghost use Rattle.searcher.specs.Expansions.{ShowsTieAtEnd, HasNoTie};
ghost use Rattle.searcher.specs.Workings.{FitsWorking};
ghost use Rattle.searcher.specs.Searches.{IsFound, FindsShare, FindsSize};
ghost use Rattle.search_team.specs.declared.jobs.Job.{Job};
ghost use Rattle.search_team.specs.Searchers.{IsJob};
ghost use Rattle.search_team.specs.Walkers.{IsWorker};
ghost use Rattle.search_team.specs.Teams.{IsSharedFound, IsTeamStopped, IsHandedBack};

use crate::ending::ended;
use crate::jobs::Job;
use crate::opening::{Room, begun, prepared};
use crate::progress::Progress;
use crate::steps::search_once;
use crate::stopping::{Part, TeamStopped};
use crate::turning::work;
use crate::walkers::all_start;
use branch_pool::{Pool, SEATS};
use cayley::Problem;
use edge_io::Gate;
use searcher::{Branch, Found, HaltCause};
use std::alloc::Global;
use std::snapshot::Snapshot;
use std::sync::Wait;
use std::thread;
use std::thread::Threads;

// Memory lacked before the first offer.
fn unbegun(alloc: Global, branches: Vec<Branch>) -> TeamStopped
    ensures { (result.unoffered ≡ branches) × (result.parts.items ≡ []) × (result.rest ≡ None) × (result.cause ≡ HaltCause.OutOfMemory) }
{
    TeamStopped {
        cause: HaltCause::OutOfMemory,
        parts: Vec::new(alloc),
        unoffered: branches,
        rest: None,
    }
}

// A team of one needs no pool.
fn alone(alloc: Global, problem: &Problem, branches: Vec<Branch>) -> Result<Found, TeamStopped>
    requires still { IsStill problem.now }
    ensures answer { MatchResult result (IsSharedFound problem.now branches.items) (IsTeamStopped problem.now branches.items) }
    ensures unoffered { IfErr result (IsHandedBack branches) }
{
    let Ok(mut parts) = Vec::with_capacity(alloc, 1) else {
        return Err(unbegun(alloc, branches));
    };
    match search_once(alloc, problem, branches) {
        Ok(found) => Ok(found),
        Err(stopped) => {
            parts.push_reserved(Part {
                left: stopped.left,
                found: stopped.found.cells,
            });
            Err(TeamStopped {
                cause: stopped.cause,
                parts,
                unoffered: Vec::new(alloc),
                rest: None,
            })
        }
    }
}

// Lets all searchers work, each in a thread of its own where there are enough.
fn run_all<G: Gate, R: Threads + Wait + Sync>(
    rt: &R,
    alloc: Global,
    problem: &Problem,
    gate: &G,
    pool: &Pool<Branch>,
    searchers: u32,
    given: &Snapshot<Vec<Branch>>,
    progress: &Progress,
    from_start: bool,
    jobs: &mut [Job],
)
    requires still { IsStill problem.now }
    requires seats { (searchers ≡ length pool.now.deques) × (searchers ≤ SEATS) }
    requires jobs { All (IsWorker problem.now pool.now given.now.value.items from_start) jobs.old }
    ensures jobs { All (IsJob problem.now pool.now given.now.value.items) jobs.new }
    ensures numbers { (i : ℕ) (d : Job) → i < length jobs.old → (slice_index_or jobs.new i d).number ≡ (slice_index_or jobs.old i d).number }
    ensures long { length jobs.new ≡ length jobs.old }
{
    thread::for_each_mut(
        rt,
        jobs,
        SEATS as usize,
        &|_, job|
            requires { IsStill problem.now × (searchers ≡ length pool.now.deques) × (searchers ≤ SEATS) × IsWorker problem.now pool.now given.now.value.items from_start job.old }
        {
            work(
                rt, alloc, problem, gate, pool, searchers, given, progress, from_start, job,
            )
        },
    );
}

// Several searchers over one pool.
fn pooled<G: Gate, R: Threads + Wait + Sync>(
    rt: &R,
    alloc: Global,
    problem: &Problem,
    branches: Vec<Branch>,
    searchers: u32,
    gate: &G,
) -> Result<Found, TeamStopped>
    requires seats { (1 ≤ searchers) × (searchers ≤ SEATS) }
    requires still { IsStill problem.now }
    ensures answer { MatchResult result (IsSharedFound problem.now branches.items) (IsTeamStopped problem.now branches.items) }
    ensures unoffered { IfErr result (IsHandedBack branches) }
{
    let room = match prepared(alloc, searchers) {
        Ok(room) => room,
        Err(_) => return Err(unbegun(alloc, branches)),
    };
    let Room {
        pool,
        mut jobs,
        parts,
        seats,
    } = room;
    let given = Snapshot::of(&branches);
    let open = branches.len() as u64;
    let from_start = all_start(&branches);
    begun(problem, &given, &pool, &mut jobs, branches);
    let progress = Progress::new(open, jobs[0].report.is_some());
    run_all(
        rt,
        alloc,
        problem,
        gate,
        &pool,
        searchers,
        &given,
        &progress,
        from_start,
        jobs.as_mut_slice(),
    );
    ended(alloc, problem, &given, pool, jobs, parts, seats)
}

// What a team answers.
fn answered<G: Gate, R: Threads + Wait + Sync>(
    rt: &R,
    alloc: Global,
    problem: &Problem,
    branches: Vec<Branch>,
    searchers: u32,
    gate: &G,
) -> Result<Found, TeamStopped>
    requires seats { (1 ≤ searchers) × (searchers ≤ SEATS) }
    requires still { IsStill problem.now }
    ensures answer { MatchResult result (IsSharedFound problem.now branches.items) (IsTeamStopped problem.now branches.items) }
    ensures unoffered { IfErr result (IsHandedBack branches) }
{
    if searchers == 1 {
        alone(alloc, problem, branches)
    } else {
        pooled(rt, alloc, problem, branches, searchers, gate)
    }
}

/// Searches the given branches of a problem whose file points rest by 1 to
/// [`SEATS`](branch_pool::SEATS) searchers.
///
/// Each searcher takes the newest branch of its own deque, or else the oldest of another's, passes
/// the gate, expands, and offers the children. One searcher alone searches as `search_alone` does,
/// with no pool and no gate.
///
/// The found cells are, in cell order, the mixed cells whose chains lead to the given branches; a
/// branch that is given twice counts twice, and strangers are dropped. `solves` is the number of
/// cells that were solved. Where the team stops nothing is lost: what was found and what the left
/// branches lead to are together the same, or may be had by closing the rest. If several searchers
/// report a tie or an overflow, the report with the least cell is answered.
pub fn search_shared<G: Gate, R: Threads + Wait + Sync>(
    rt: &R,
    alloc: Global,
    problem: &Problem,
    branches: Vec<Branch>,
    searchers: u32,
    gate: &G,
) -> Result<Found, TeamStopped>
    requires seats { (1 ≤ searchers) × (searchers ≤ SEATS) }
    requires still { IsStill problem.now }
    ensures answer { MatchResult result (IsFound problem.now branches.items) (IsTeamStopped problem.now branches.items) }
    // Of one branch the cells are its share, and the solves are its size.
    ensures share { IfOk result (FindsShare problem.now branches.items) }
    ensures size { IfOk result (FindsSize problem.now branches.items) }
    // The whole working of each found cell fits.
    ensures fit { IfOk result (λ f. Each f.cells.items (λ x. FitsWorking problem.now x.cell)) }
    // The given vector comes back before the first offer, and later none is unoffered.
    ensures unoffered { IfErr result (IsHandedBack branches) }
    // A tie is one where its cell begins or ends, and none comes where no cell has a tie.
    ensures tie { IfErr result (λ s. ShowsTieAtEnd problem.now s.cause) }
    ensures untied { IsTieFree problem.now → IfErr result (λ s. HasNoTie s.cause) }
{
    // A problem is valid by its type, as its readers tell.
    let _dim = problem.dim();
    answered(rt, alloc, problem, branches, searchers, gate)
}
