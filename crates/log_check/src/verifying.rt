// A whole log judged.
ghost use Rattle.std.specs.Prelude.{◌≡◌, ◌↔◌, ℕ, Ok, Err, MatchResult};
ghost use Rattle.cell_certificate.specs.Answers.{HadMemory};
ghost use Rattle.cell_certificate.specs.declared.verdict.CheckFault.TheVariants as fault;
ghost use Rattle.cell_certificate.specs.declared.verdict.Verdict.TheVariants as verdict;
ghost use Rattle.log_check.specs.Verdicts as verdicts;
ghost use Rattle.log_check.specs.Verdicts.{HasShapes, IsHalt, IsAnswerOf, IsVerdict, IsRightLog, IsWrongLog, IsTooLargeLog, HasPathTree, ListsMixedCells, IsTracedLog, FitsLog, NeverNo};

use crate::comparing::compare;
use crate::refusal::{Halt, Refusal};
use crate::walking::expected_cells;
use cell_certificate::{CheckFault, Verdict};
use path_log::PathLog;
use start_system::with_corners;
use std::alloc::Global;

// The number of a reason. `None` where a number doesn't fit.
fn reason_of(refusal: Refusal) -> Option<u8>
    ensures { result ≡ verdicts.reason_of refusal }
{
    match refusal {
        Refusal::Unfit => None,
        Refusal::NotDue => Some(11),
        Refusal::NotInverse => Some(12),
        Refusal::Tied => Some(13),
        Refusal::StillDue => Some(14),
        Refusal::NotExpected => Some(15),
        Refusal::Missing => Some(15),
    }
}

// The answer where something speaks against a log.
fn answer_of(halt: Halt) -> Result<Verdict, CheckFault>
    ensures { IsAnswerOf halt result }
{
    match halt {
        Halt::Refused { line, refusal } => match reason_of(refusal) {
            Some(reason) => Ok(Verdict::No { line, reason }),
            None => Err(CheckFault::Overflow { line }),
        },
        Halt::OutOfMemory => Err(CheckFault::OutOfMemory),
    }
}

// Whether nothing speaks against a log.
fn passes(alloc: Global, log: &PathLog) -> Result<(), Halt>
    requires { HasShapes log.now }
    ensures { MatchResult result (λ right. IsRightLog log.now) (IsHalt log.now) }
{
    let Ok(problem) = with_corners(alloc, &log.file) else {
        return Err(Halt::OutOfMemory);
    };
    match expected_cells(alloc, &problem, log) {
        Ok(expected) => compare(log, expected.as_slice()),
        Err(halt) => Err(halt),
    }
}

// The answer, with what it says of the log.
fn judged(alloc: Global, log: &PathLog) -> Result<Verdict, CheckFault>
    requires { HasShapes log.now }
    ensures { IsVerdict log.now result }
{
    match passes(alloc, log) {
        Ok(()) => Ok(Verdict::Yes),
        Err(halt) => answer_of(halt),
    }
}

/// Judges a log: its node lines in order, then its cell lines. The first line that doesn't pass
/// decides. Nothing is eliminated, and no more is kept than the cells that are due and those that are
/// expected.
///
/// Each node has n times n numbers over a scale of at least 1, where n is the file's dimension, as the
/// reader of logs gives them. At first the start cell alone is due. A node line is tried in this order:
///
/// 1. Reason 11: its cell isn't the next that is due.
/// 2. Overflow: a product or partial sum of the differences of its pairs times its matrix doesn't fit.
/// 3. Reason 12: this product isn't its scale times the identity.
/// 4. Overflow: a number of the normal, of a wall line or of a circuit doesn't fit, with the scale in
///    the place of the denominator.
/// 5. Reason 13: two further points are level where its cell ends.
/// 6. Else the cell is no longer due. Its children, in cell order, are due next, before all others.
///
/// Then the cell part is tried:
///
/// 1. Reason 14, at the line `cells`: a cell is still due.
/// 2. Reason 15, at a cell line: it isn't the next expected cell with its normal in lowest terms. The
///    expected cells are those of the nodes that never end and have file points alone, in cell order.
/// 3. Reason 15, at the last `end`: an expected cell is missing.
pub fn verify(alloc: Global, log: &PathLog) -> Result<Verdict, CheckFault>
    requires nodes { HasShapes log.now }
    ensures yes { HadMemory result → (result ≡ Ok verdict.Yes) ↔ IsRightLog log.now }
    ensures no { HadMemory result → (line reason : ℕ) → (result ≡ Ok (verdict.No line reason)) ↔ IsWrongLog log.now line reason }
    ensures overflow { HadMemory result → (line : ℕ) → (result ≡ Err (fault.Overflow line)) ↔ IsTooLargeLog log.now line }
    // What a right log says is true.
    ensures tree { result ≡ Ok verdict.Yes → HasPathTree log.now }
    ensures listing { result ≡ Ok verdict.Yes → ListsMixedCells log.now }
    // A log that was written is never refused by a reason, and is right where its numbers fit.
    ensures spares { IsTracedLog log.now → NeverNo result }
    ensures traced { IsTracedLog log.now → FitsLog log.now → HadMemory result → result ≡ Ok verdict.Yes }
{
    // A lift file is valid by its type, as its readers tell.
    let _dim = log.file.dim();
    judged(alloc, log)
}
