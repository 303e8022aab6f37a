// What `move` replies on the bytes of its input.
ghost use Rattle.cayley.specs.Stored.{cells_of};
ghost use Rattle.std.specs.Prelude.{◌≡◌, ◌<◌, IfOk, MatchResult, map};
ghost use Rattle.int_vectors.specs.Vectors.{Each};
ghost use Rattle.cayley.specs.Cells.{IsSorted};
ghost use Rattle.cayley.specs.Files.{plain_problem};
ghost use Rattle.cayley.specs.Mixed.{IsAlive, IsMixedCell};
ghost use Rattle.cayley.specs.Problems.{version1};
ghost use Rattle.cayley.specs.Shapes.{AreSecondHeights};
ghost use Rattle.cayley.specs.Times.{time_zero};
ghost use Rattle.support_text.specs.Stored.{heights_view};
ghost use Rattle.cell_certificate.specs.Answers.{IsRight};
ghost use Rattle.cell_certificate.specs.Written.{AreListed};
ghost use Rattle.lift_move.specs.Segments.{IsSegment, end_of};
ghost use Rattle.lift_move.specs.Moves.{AreMoved, IsMoveHalt};
ghost use Rattle.mixedcells.specs.Answers.{IsMoveReply};
ghost use Rattle.mixedcells.specs.Moving.{segment_of, target_of, AreMovedCells, IsMovedReply};
ghost use Rattle.mixedcells.specs.Moving as moving;

use crate::along::halted;
use crate::outcome::Outcome;
use crate::replies::{Reply, refusal, verdict};
use cayley::{Cell, FoundCell, LiftFile, Problem};
use cone_walls::Steps;
use lift_move::{move_cells, read_move, second_file};
use listing_text::{ListedCell, Listing, write_listing};
use searcher::HaltCause;
use std::alloc::Global;
use std::marker::Brand;
use std::sync::ledger::{Blank, Ledger};
use support_text::TextFault;
use wide_int::OutOfMemory;

// The cells of a listing.
fn listed_cells(alloc: Global, listed: &[ListedCell]) -> Result<Vec<Cell>, OutOfMemory>
    ensures { IfOk result (λ cells. cells.items ≡ map (λ x. x.cell) listed.now) }
{
    let Ok(mut cells) = Vec::with_capacity(alloc, listed.len()) else {
        return Err(OutOfMemory);
    };
    for x in listed {
        if let Err(_) = cells.push(x.cell.copy()) {
            return Err(OutOfMemory);
        }
    }
    Ok(cells)
}

// Moves these cells, by a counter of its own.
fn move_by<L: Ledger>(
    alloc: Global,
    segment: &Problem,
    target: &Problem,
    cells: &[Cell],
    blank: Blank,
) -> Result<Vec<FoundCell>, HaltCause>
    requires ledger { (blank.name ≡ L.name) × (blank.parts ≡ L.parts) × (0 < blank.parts) }
    requires segment { IsSegment segment.now }
    requires target { target.now ≡ end_of segment.now }
    requires order { IsSorted cells.now }
    requires alive { Each cells.now (λ cell. IsAlive segment.now cell time_zero) }
    ensures answer { MatchResult result (λ found. AreMoved segment.now target.now cells.now found.items) (IsMoveHalt segment.now target.now cells.now) }
    ensures mixed { IfOk result (λ found. Each (cells_of found.items) (IsMixedCell target.now)) }
{
    let mut steps = Steps::<L>::new(blank);
    move_cells(alloc, segment, target, cells, &mut steps)
}

// The cells of the file with the second heights to which those of a listing lead.
fn carried(
    alloc: Global,
    listing: &Listing,
    second: &[Vec<i64>],
    file: &LiftFile,
) -> Result<Vec<FoundCell>, HaltCause>
    requires listed { AreListed listing.now }
    requires version { listing.now.file.version ≡ version1 }
    requires heights { AreSecondHeights listing.now.file (map heights_view second.now) }
    requires right { IsRight listing.now }
    requires target { file.now ≡ target_of listing.now (map heights_view second.now) }
    requires end { plain_problem file.now ≡ end_of (segment_of listing.now (map heights_view second.now)) }
    ensures { MatchResult result (λ found. AreMovedCells listing.now (map heights_view second.now) found.items)
        (IsMoveHalt (segment_of listing.now (map heights_view second.now)) (plain_problem file.now) (moving.listed_cells listing.now)) }
{
    // A lift file is valid by its type, as its readers tell.
    let _dim = listing.file.dim();
    // The heights are as many as the points and within their limits: memory alone may lack.
    let Ok(segment) = Problem::between(alloc, &listing.file, second) else {
        return Err(HaltCause::OutOfMemory);
    };
    let Ok(target) = Problem::plain(alloc, file) else {
        return Err(HaltCause::OutOfMemory);
    };
    let Ok(cells) = listed_cells(alloc, &listing.cells) else {
        return Err(HaltCause::OutOfMemory);
    };
    move_by::<Brand>(alloc, &segment, &target, &cells, Blank::new(1))
}

// What the cells of a listing lead to, whose lines all pass.
fn followed(alloc: Global, listing: &Listing, second: &[Vec<i64>]) -> Result<Reply, OutOfMemory>
    requires listed { AreListed listing.now }
    requires version { listing.now.file.version ≡ version1 }
    requires heights { AreSecondHeights listing.now.file (map heights_view second.now) }
    requires right { IsRight listing.now }
    ensures { IfOk result (λ r. IsMovedReply listing.now (map heights_view second.now) r.outcome r.text.items) }
{
    let file = second_file(alloc, &listing.file, second)?;
    match carried(alloc, listing, second, &file) {
        Ok(found) => {
            let text = write_listing(alloc, &file, &found)?;
            Ok(Reply {
                outcome: Outcome::Ok,
                text,
            })
        }
        Err(cause) => halted(alloc, cause),
    }
}

// The same where they pass, else what `check` says.
fn judged_move(alloc: Global, listing: &Listing, second: &[Vec<i64>]) -> Result<Reply, OutOfMemory>
    requires listed { AreListed listing.now }
    requires version { listing.now.file.version ≡ version1 }
    requires heights { AreSecondHeights listing.now.file (map heights_view second.now) }
    ensures { IfOk result (λ r. IsMovedReply listing.now (map heights_view second.now) r.outcome r.text.items) }
{
    let reply = verdict(alloc, listing)?;
    if let Outcome::Ok = &reply.outcome {
        return followed(alloc, listing, second);
    }
    Ok(reply)
}

/// What `move` replies.
pub fn moved(alloc: Global, bytes: &[u8]) -> Result<Reply, OutOfMemory>
    ensures { IfOk result (λ r. IsMoveReply bytes.now r.outcome r.text.items) }
{
    match read_move(alloc, bytes) {
        Ok(read) => judged_move(alloc, &read.listing, &read.second),
        Err(TextFault::Format(fault)) => refusal(alloc, fault),
        Err(TextFault::OutOfMemory) => Err(OutOfMemory),
    }
}
