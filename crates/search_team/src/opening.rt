//! The beginning of a team: its pool, its jobs, and the given branches in the first seat's deque.
ghost use Rattle.std.specs.Prelude.{◌≡◌, ◌≤◌, ◌+◌, [], ◌++◌, None, map, IfOk, IfSome, IsPermutation, length, vec_capacity};
ghost use Rattle.std.specs.List.{All, range_with_len};
ghost use Rattle.cayley.specs.Problems.{IsStill};
ghost use Rattle.branch_pool.specs.declared.rule.TheConstants.{SEATS};
ghost use Rattle.branch_pool.specs.Seats.{IsSeatOf, all_taken, fresh_seats};
ghost use Rattle.search_team.specs.Searchers.{IsFresh, IsJob};
ghost use Rattle.search_team.specs.Walkers.{IsReady};
ghost use Rattle.int_vectors.specs.Vectors.{Each};
ghost use Rattle.cayley.specs.declared.found.Begin.TheVariants.{Start};

use crate::jobs::Job;
use crate::stopping::Part;
use branch_pool::{Pool, Seat};
use cayley::Problem;
use searcher::{Branch, HaltCause};
use std::alloc::Global;
use std::snapshot::Snapshot;
use wide_int::OutOfMemory;

/// A pool with a job for each seat, and the room for what a team hands back.
#[derive(Drop)]
pub struct Room {
    pub pool: Pool<Branch>,
    pub jobs: Vec<Job>,
    pub parts: Vec<Part>,
    pub seats: Vec<Seat<Branch>>,
}

// A job for each seat, in their order.
fn dressed(alloc: Global, mut seats: Vec<Seat<Branch>>, mut jobs: Vec<Job>) -> Vec<Job>
    requires few { length seats.items ≤ SEATS }
    requires room { (jobs.items ≡ []) × (length seats.items ≤ vec_capacity jobs) }
    ensures seats { map (λ j. j.seat) result.items ≡ seats.items }
    ensures numbers { map (λ j. j.number) result.items ≡ range_with_len 1 (length seats.items) }
    ensures fresh { All (λ j. (j.hand.items ≡ []) × (j.found.items ≡ []) × (j.solves ≡ 0) × (j.report ≡ None)) result.items }
{
    while let Some(seat) = seats.pop() {
        jobs.push_reserved(Job {
            number: seats.len() as u32 + 1,
            seat,
            hand: Vec::new(alloc),
            found: Vec::new(alloc),
            solves: 0,
            expansions: 0,
            report: None,
        });
    }
    jobs.reverse();
    jobs
}

/// Takes all the room that a team needs where it stops.
pub fn prepared(alloc: Global, searchers: u32) -> Result<Room, OutOfMemory>
    requires { (1 ≤ searchers) × (searchers ≤ SEATS) }
    ensures pool { IfOk result (λ r. length r.pool.deques ≡ searchers) }
    ensures numbers { IfOk result (λ r. map (λ j. j.number) r.jobs.items ≡ range_with_len 1 searchers) }
    ensures fresh { IfOk result (λ r. All (IsFresh r.pool) r.jobs.items) }
    ensures room { IfOk result (λ r. (r.parts.items ≡ []) × (r.seats.items ≡ []) × (searchers + 2 ≤ vec_capacity r.parts) × (searchers ≤ vec_capacity r.seats)) }
{
    let count = searchers as usize;
    let Ok(parts) = Vec::with_capacity(alloc, count + 2) else {
        return Err(OutOfMemory);
    };
    let Ok(back) = Vec::with_capacity(alloc, count) else {
        return Err(OutOfMemory);
    };
    let Ok(jobs) = Vec::with_capacity(alloc, count) else {
        return Err(OutOfMemory);
    };
    let (pool, seats) = Pool::new(alloc, searchers)?;
    Ok(Room {
        pool,
        jobs: dressed(alloc, seats, jobs),
        parts,
        seats: back,
    })
}

// Offers the branches by this job's seat; from the first that is handed back they stay in its hand.
fn offered(pool: &Pool<Branch>, job: &mut Job, mut branches: Vec<Branch>)
    requires fresh { IsFresh pool.now job.old }
    ensures outs { IsPermutation branches.items (job.new.seat.offered ++ job.new.hand.items) }
    ensures same { (job.new.number ≡ job.old.number) × (job.new.seat.number ≡ job.old.seat.number) × (job.new.seat.deques ≡ job.old.seat.deques) × (all_taken job.new.seat ≡ all_taken job.old.seat) × (job.new.found ≡ job.old.found) × (job.new.solves ≡ job.old.solves) }
    ensures calm { job.new.report ≡ None → job.new.hand.items ≡ [] }
    ensures told { IfSome job.new.report (λ cause. cause ≡ HaltCause.OutOfMemory) }
{
    while let Some(branch) = branches.pop() {
        if let Err(branch) = pool.offer(&mut job.seat, branch) {
            branches.push_reserved(branch);
            job.hand = branches;
            job.report = Some(HaltCause::OutOfMemory);
            return;
        }
    }
}

/// Puts the given branches into the first job.
pub fn begun(
    problem: &Problem,
    given: &Snapshot<Vec<Branch>>,
    pool: &Pool<Branch>,
    jobs: &mut Vec<Job>,
    branches: Vec<Branch>,
)
    requires given { given.now.value.items ≡ branches.items }
    requires numbers { (1 ≤ length jobs.old.items) × (map (λ j. j.number) jobs.old.items ≡ range_with_len 1 (length pool.now.deques)) }
    requires fresh { All (IsFresh pool.now) jobs.old.items }
    ensures jobs { All (IsJob problem.now pool.now given.now.value.items) jobs.new.items }
    ensures ready { All (λ b. b.begin ≡ Start) branches.items → All (λ j. Each j.seat.offered (IsReady problem.now)) jobs.new.items }
    ensures numbers { map (λ j. j.number) jobs.new.items ≡ map (λ j. j.number) jobs.old.items }
{
    offered(pool, &mut jobs[0], branches);
}
