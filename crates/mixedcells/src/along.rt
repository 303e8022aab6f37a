// What `list`, `sum` and `generic` reply on a file.
ghost use Rattle.std.specs.Prelude.{◌≡◌, IfOk, MatchResult};
ghost use Rattle.lex_height.specs.Values.{IsLowest};
ghost use Rattle.mixedcells.specs.Outcomes as lines;
ghost use Rattle.mixedcells.specs.Outcomes.{IsTieLine};
ghost use Rattle.mixedcells.specs.Walks.{IsReachedListing, IsReachedSum, IsWalkReply, IsTieReply};
ghost use Rattle.mixedcells.specs.Journeys.{TellsCause, HasWalked, HasCounted, HasHalted};

use crate::lines::{overflow_cell, sum_lines, tie_free_line, tie_line, too_many_line};
use crate::outcome::Outcome;
use crate::replies::Reply;
use crate::walks::{walk, walk_counting};
use cayley::{Cell, LiftFile, TieProof};
use listing_text::write_listing;
use plain_lister::{PlainFault, is_tie_free};
use searcher::{Counted, Found, HaltCause};
use start_system::with_corners;
use std::alloc::Global;
use wide_int::OutOfMemory;

// The reply to a tie.
fn tied(alloc: Global, proof: TieProof) -> Result<Reply, OutOfMemory>
    ensures told { IfOk result (λ r. (r.outcome ≡ Outcome.Tie proof) × IsTieLine proof r.text.items) }
    ensures lowest { IsLowest proof.time }
{
    let text = tie_line(alloc, &proof)?;
    Ok(Reply {
        outcome: Outcome::Tie(proof),
        text,
    })
}

// The reply to a cell whose working doesn't fit.
fn unfit(alloc: Global, cell: Cell) -> Result<Reply, OutOfMemory>
    ensures { IfOk result (λ r. (r.outcome ≡ Outcome.OverflowCell cell) × (r.text.items ≡ lines.overflow_cell cell)) }
{
    let text = overflow_cell(alloc, &cell)?;
    Ok(Reply {
        outcome: Outcome::OverflowCell { cell },
        text,
    })
}

/// The reply to the cause for which a walk halted.
pub fn halted(alloc: Global, cause: HaltCause) -> Result<Reply, OutOfMemory>
    ensures { IfOk result (λ r. TellsCause cause r.outcome r.text.items) }
{
    match cause {
        HaltCause::Tie(proof) => tied(alloc, proof),
        HaltCause::Overflow { cell } => unfit(alloc, cell),
        HaltCause::OutOfMemory => Err(OutOfMemory),
    }
}

/// What `list` replies on a file whose path was walked.
pub fn list_of(
    alloc: Global,
    file: &LiftFile,
    walked: Result<Found, HaltCause>,
) -> Result<Reply, OutOfMemory>
    requires { MatchResult walked (HasWalked file.now) (HasHalted file.now) }
    ensures { IfOk result (λ r. IsWalkReply IsReachedListing file.now r.outcome r.text.items) }
{
    match walked {
        Ok(found) => {
            let text = write_listing(alloc, file, &found.cells)?;
            Ok(Reply {
                outcome: Outcome::Ok,
                text,
            })
        }
        Err(cause) => halted(alloc, cause),
    }
}

/// What `sum` replies on a file whose path was walked.
pub fn sum_of(
    alloc: Global,
    file: &LiftFile,
    walked: Result<Counted, HaltCause>,
) -> Result<Reply, OutOfMemory>
    requires { MatchResult walked (HasCounted file.now) (HasHalted file.now) }
    ensures { IfOk result (λ r. IsWalkReply IsReachedSum file.now r.outcome r.text.items) }
{
    match walked {
        Ok(counted) => {
            let text = sum_lines(alloc, counted.cells, counted.solves)?;
            Ok(Reply {
                outcome: Outcome::Ok,
                text,
            })
        }
        Err(cause) => halted(alloc, cause),
    }
}

/// What `list` replies on a file by one searcher.
pub fn list(alloc: Global, file: &LiftFile) -> Result<Reply, OutOfMemory>
    ensures { IfOk result (λ r. IsWalkReply IsReachedListing file.now r.outcome r.text.items) }
{
    list_of(alloc, file, walk(alloc, file))
}

/// What `sum` replies on a file by one searcher.
pub fn sum(alloc: Global, file: &LiftFile) -> Result<Reply, OutOfMemory>
    ensures { IfOk result (λ r. IsWalkReply IsReachedSum file.now r.outcome r.text.items) }
{
    sum_of(alloc, file, walk_counting(alloc, file))
}

/// What `generic` replies on a file.
pub fn generic(alloc: Global, file: &LiftFile) -> Result<Reply, OutOfMemory>
    ensures { IfOk result (λ r. IsTieReply file.now r.outcome r.text.items) }
{
    let problem = with_corners(alloc, file)?;
    match is_tie_free(alloc, &problem) {
        Ok(None) => {
            let text = tie_free_line(alloc)?;
            Ok(Reply {
                outcome: Outcome::Ok,
                text,
            })
        }
        Ok(Some(proof)) => tied(alloc, proof),
        Err(PlainFault::TooMany { choices }) => {
            let text = too_many_line(alloc, choices)?;
            Ok(Reply {
                outcome: Outcome::TooMany { choices },
                text,
            })
        }
        Err(PlainFault::Overflow { cell }) => unfit(alloc, cell),
        Err(PlainFault::OutOfMemory) => Err(OutOfMemory),
    }
}
