// What `list` and `sum` reply by several searchers.
ghost use Rattle.std.specs.Prelude.{◌≡◌, ◌⊎◌, ◌≤◌, IfOk, MatchResult, IsTrue};
ghost use Rattle.mixedcells.specs.Answers.{IsFileReply};
ghost use Rattle.mixedcells.specs.Walks.{IsReachedListing, IsReachedSum, IsWalkReply};
ghost use Rattle.mixedcells.specs.Journeys.{HasWalked, HasCounted, HasHalted};

use crate::along::{list_of, sum_of};
use crate::replies::{Reply, refusal};
use cayley::LiftFile;
use edge_io::Gate;
use search_team::search_together;
use searcher::{Counted, Found, HaltCause};
use start_system::with_corners;
use std::alloc::Global;
use std::sync::Wait;
use std::thread::Threads;
use support_text::{TextFault, read_problem};
use wide_int::OutOfMemory;

// Walks along the path of a file from its start cell by a team.
fn walk_by<G: Gate, R: Threads + Wait + Sync>(
    rt: &R,
    alloc: Global,
    file: &LiftFile,
    searchers: u32,
    gate: &G,
) -> Result<Found, HaltCause>
    requires { (1 ≤ searchers) × (searchers ≤ 64) }
    ensures { MatchResult result (HasWalked file.now) (HasHalted file.now) }
{
    let _dim = file.dim();
    let Ok(problem) = with_corners(alloc, file) else {
        return Err(HaltCause::OutOfMemory);
    };
    search_together(rt, alloc, &problem, searchers, gate)
}

// Counts what a team finds on such a walk, once it has found it all.
fn count_by<G: Gate, R: Threads + Wait + Sync>(
    rt: &R,
    alloc: Global,
    file: &LiftFile,
    searchers: u32,
    gate: &G,
) -> Result<Counted, HaltCause>
    requires { (1 ≤ searchers) × (searchers ≤ 64) }
    ensures { MatchResult result (HasCounted file.now) (HasHalted file.now) }
{
    match walk_by(rt, alloc, file, searchers, gate) {
        Ok(found) => Ok(Counted {
            cells: found.cells.len() as u64,
            solves: found.solves,
        }),
        Err(cause) => Err(cause),
    }
}

/// What `list` replies by several searchers on the bytes of its whole input.
pub fn list_by<G: Gate, R: Threads + Wait + Sync>(
    rt: &R,
    alloc: Global,
    searchers: u32,
    bytes: &[u8],
    gate: &G,
) -> Result<Reply, OutOfMemory>
    requires { (1 ≤ searchers) × (searchers ≤ 64) }
    ensures { IfOk result (λ r. IsFileReply (IsWalkReply IsReachedListing) bytes.now r.outcome r.text.items) }
{
    match read_problem(alloc, bytes) {
        Ok(file) => list_of(alloc, &file, walk_by(rt, alloc, &file, searchers, gate)),
        Err(TextFault::Format(fault)) => refusal(alloc, fault),
        Err(TextFault::OutOfMemory) => Err(OutOfMemory),
    }
}

/// What `sum` replies by several searchers on the bytes of its whole input.
pub fn sum_by<G: Gate, R: Threads + Wait + Sync>(
    rt: &R,
    alloc: Global,
    searchers: u32,
    bytes: &[u8],
    gate: &G,
) -> Result<Reply, OutOfMemory>
    requires { (1 ≤ searchers) × (searchers ≤ 64) }
    ensures { IfOk result (λ r. IsFileReply (IsWalkReply IsReachedSum) bytes.now r.outcome r.text.items) }
{
    match read_problem(alloc, bytes) {
        Ok(file) => sum_of(alloc, &file, count_by(rt, alloc, &file, searchers, gate)),
        Err(TextFault::Format(fault)) => refusal(alloc, fault),
        Err(TextFault::OutOfMemory) => Err(OutOfMemory),
    }
}
