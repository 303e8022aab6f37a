//! The end of a team: what its searchers found and left comes together.
ghost use Rattle.cayley.specs.Stored.{cells_of};
ghost use Rattle.std.specs.Prelude.{◌≡◌, ◌⊎◌, ◌≤◌, ◌+◌, [], ◌++◌, None, map, reverse, IfOk, IfErr, IfSome, IsPermutation, MatchResult, length, vec_len, vec_capacity};
ghost use Rattle.std.specs.List.{All, range_with_len};
ghost use Rattle.cayley.specs.Problems.{IsStill};
ghost use Rattle.branch_pool.specs.Seats.{IsSeatOf, offered_by, taken_by};
ghost use Rattle.searcher.specs.Searches.{NeverFalls};
ghost use Rattle.search_team.specs.Searchers.{IsJob, IsWhole, IsDivided, given_by};
ghost use Rattle.search_team.specs.Teams.{all_left, all_found, IsSharedFound, IsTeamStopped};

use crate::jobs::Job;
use crate::steps::search_once;
use crate::stopping::{Part, TeamStopped};
use branch_pool::{Pool, Seat};
use cayley::{FoundCell, Problem};
use searcher::{Branch, Found, HaltCause};
use std::alloc::Global;
use std::snapshot::Snapshot;

// The jobs in pieces.
struct Pieces {
    parts: Vec<Part>,
    seats: Vec<Seat<Branch>>,
    solves: u64,
    report: Option<HaltCause>,
}

// Whether the first cause is told of a lesser cell; want of memory goes last.
fn goes_first(first: &HaltCause, second: &HaltCause) -> bool {
    match (first, second) {
        (HaltCause::Tie(x), HaltCause::Tie(y)) => x.cell.cmp(&y.cell).is_lt(),
        (HaltCause::Tie(x), HaltCause::Overflow { cell }) => x.cell.cmp(cell).is_lt(),
        (HaltCause::Overflow { cell }, HaltCause::Tie(y)) => cell.cmp(&y.cell).is_lt(),
        (HaltCause::Overflow { cell }, HaltCause::Overflow { cell: other }) => {
            cell.cmp(other).is_lt()
        }
        (HaltCause::OutOfMemory, _) => false,
        (_, HaltCause::OutOfMemory) => true,
    }
}

// The report with the least cell.
fn chosen(first: Option<HaltCause>, second: Option<HaltCause>) -> Option<HaltCause>
    ensures one { (result ≡ first) ⊎ (result ≡ second) }
    ensures none { result ≡ None → (first ≡ None) × (second ≡ None) }
{
    let Some(one) = first else {
        return second;
    };
    let Some(other) = second else {
        return Some(one);
    };
    if goes_first(&other, &one) {
        Some(other)
    } else {
        Some(one)
    }
}

// Takes the jobs apart.
fn parted(
    problem: &Problem,
    given: &Snapshot<Vec<Branch>>,
    pool: &Pool<Branch>,
    mut jobs: Vec<Job>,
    mut parts: Vec<Part>,
    mut seats: Vec<Seat<Branch>>,
) -> Pieces
    requires jobs { All (IsJob problem.now pool.now given.now.value.items) jobs.items }
    requires room { (parts.items ≡ []) × (seats.items ≡ []) × (length jobs.items + 2 ≤ vec_capacity parts) × (length jobs.items ≤ vec_capacity seats) }
    ensures whole { IsWhole problem.now (given_by given.now.value.items result.seats.items) (taken_by result.seats.items) (offered_by result.seats.items) (all_left result.parts.items) (all_found result.parts.items) result.solves result.report }
    ensures own { All (IsSeatOf pool.now) result.seats.items }
    ensures numbers { map (λ j. j.number) jobs.items ≡ reverse (map (λ s. s.number) result.seats.items) }
    ensures room { vec_len result.parts + 2 ≤ vec_capacity result.parts }
{
    let mut solves: u64 = 0;
    let mut report = None;
    while let Some(job) = jobs.pop() {
        parts.push_reserved(Part {
            left: job.hand,
            found: job.found,
        });
        seats.push_reserved(job.seat);
        solves = solves.saturating_add(job.solves);
        report = chosen(report, job.report);
    }
    Pieces {
        parts,
        seats,
        solves,
        report,
    }
}

// Puts the cells into cell order, in place.
fn put_in_order(cells: &mut Vec<FoundCell>)
    ensures order { NeverFalls (cells_of cells.new.items) }
    ensures same { IsPermutation cells.old.items cells.new.items }
{
    cells.sort_unstable_by(|x, y| x.cell.cmp(&y.cell));
}

// All found cells in one list, in cell order.
fn gathered(alloc: Global, mut parts: Vec<Part>) -> Result<Vec<FoundCell>, Vec<Part>>
    requires none { all_left parts.items ≡ [] }
    requires room { vec_len parts + 1 ≤ vec_capacity parts }
    ensures all { IfOk result (λ cells. IsPermutation (all_found parts.items) cells.items) }
    ensures order { IfOk result (λ cells. NeverFalls (cells_of cells.items)) }
    ensures kept { IfErr result (λ ps. IsPermutation (all_found parts.items) (all_found ps.items) × (all_left ps.items ≡ [])) }
{
    let mut cells = Vec::new(alloc);
    while let Some(mut part) = parts.pop() {
        if cells.append(&mut part.found).is_err() {
            parts.push_reserved(part);
            parts.push_reserved(Part {
                left: Vec::new(alloc),
                found: cells,
            });
            return Err(parts);
        }
    }
    put_in_order(&mut cells);
    Ok(cells)
}

// Searches what no one took, and brings all found cells together.
fn finished(
    alloc: Global,
    problem: &Problem,
    given: &Snapshot<Vec<Branch>>,
    left: Vec<Branch>,
    mut parts: Vec<Part>,
    solves: u64,
) -> Result<Found, TeamStopped>
    requires still { IsStill problem.now }
    requires divided { IsDivided problem.now given.now.value.items left.items (all_found parts.items) solves }
    requires none { all_left parts.items ≡ [] }
    requires room { vec_len parts + 2 ≤ vec_capacity parts }
    ensures answer { MatchResult result (IsSharedFound problem.now given.now.value.items) (IsTeamStopped problem.now given.now.value.items) }
    ensures offered { IfErr result (λ s. s.unoffered.items ≡ []) }
{
    // A problem is valid by its type, as its readers tell.
    let _dim = problem.dim();
    let found = match search_once(alloc, problem, left) {
        Ok(found) => found,
        Err(stopped) => {
            parts.push_reserved(Part {
                left: stopped.left,
                found: stopped.found.cells,
            });
            return Err(TeamStopped {
                cause: stopped.cause,
                parts,
                unoffered: Vec::new(alloc),
                rest: None,
            });
        }
    };
    let solves = solves.saturating_add(found.solves);
    parts.push_reserved(Part {
        left: Vec::new(alloc),
        found: found.cells,
    });
    match gathered(alloc, parts) {
        Ok(cells) => Ok(Found { cells, solves }),
        Err(parts) => Err(TeamStopped {
            cause: HaltCause::OutOfMemory,
            parts,
            unoffered: Vec::new(alloc),
            rest: None,
        }),
    }
}

/// Closes the pool; what no one took is searched here.
pub fn ended(
    alloc: Global,
    problem: &Problem,
    given: &Snapshot<Vec<Branch>>,
    pool: Pool<Branch>,
    jobs: Vec<Job>,
    parts: Vec<Part>,
    seats: Vec<Seat<Branch>>,
) -> Result<Found, TeamStopped>
    requires still { IsStill problem.now }
    requires jobs { All (IsJob problem.now pool given.now.value.items) jobs.items }
    requires numbers { (1 ≤ length pool.deques) × (map (λ j. j.number) jobs.items ≡ range_with_len 1 (length pool.deques)) }
    requires room { (parts.items ≡ []) × (seats.items ≡ []) × (length jobs.items + 2 ≤ vec_capacity parts) × (length jobs.items ≤ vec_capacity seats) }
    ensures answer { MatchResult result (IsSharedFound problem.now given.now.value.items) (IsTeamStopped problem.now given.now.value.items) }
    ensures offered { IfErr result (λ s. s.unoffered.items ≡ []) }
{
    // A problem is valid by its type, as its readers tell.
    let _dim = problem.dim();
    let Pieces {
        mut parts,
        seats,
        solves,
        report,
    } = parted(problem, given, &pool, jobs, parts, seats);
    let tally = match pool.close(alloc, seats) {
        Ok(tally) => tally,
        Err(unclosed) => {
            return Err(TeamStopped {
                cause: HaltCause::OutOfMemory,
                parts,
                unoffered: Vec::new(alloc),
                rest: Some(unclosed),
            });
        }
    };
    if let Some(cause) = report {
        parts.push_reserved(Part {
            left: tally.left,
            found: Vec::new(alloc),
        });
        return Err(TeamStopped {
            cause,
            parts,
            unoffered: Vec::new(alloc),
            rest: None,
        });
    }
    finished(alloc, problem, given, tally.left, parts, solves)
}
