ghost use Rattle.std.specs.Prelude.{◌≡◌, ◌↔◌, ℕ, Ok, Err};
ghost use Rattle.cell_certificate.specs.Answers.{HadMemory, IsRight, IsWrong, IsTooLarge, IsAnswer, IsStop};
ghost use Rattle.cell_certificate.specs.Written.{AreListed, AreMixed, IsWritten, SparesWritten};
ghost use Rattle.cell_certificate.specs.declared.verdict.Verdict.TheVariants as verdicts;
ghost use Rattle.cell_certificate.specs.declared.verdict.CheckFault.TheVariants as faults;

use crate::judge::judge;
use crate::judgement::Judgement;
use crate::verdict::{CheckFault, Verdict};
use cayley::Problem;
use listing_text::Listing;
use std::alloc::Global;

// The answer at a line that is judged so; none where it passes.
fn stop(line: u64, judgement: Judgement) -> Option<Result<Verdict, CheckFault>>
    ensures { IsStop line judgement result }
{
    let reason = match judgement {
        Judgement::Passes => return None,
        Judgement::Unfit => return Some(Err(CheckFault::Overflow { line })),
        Judgement::Order => 1,
        Judgement::Dependent => 2,
        Judgement::NotLevel => 3,
        Judgement::NotLeast => 4,
        Judgement::NotLowest => 5,
    };
    Some(Ok(Verdict::No { line, reason }))
}

// The answer at the first line that doesn't pass.
fn answer(alloc: Global, listing: &Listing) -> Result<Verdict, CheckFault>
    requires { AreListed listing.now }
    ensures { IsAnswer listing.now result }
{
    let Ok(problem) = Problem::plain(alloc, &listing.file) else {
        return Err(CheckFault::OutOfMemory);
    };
    let mut before = None;
    for listed in &listing.cells {
        let Ok(judgement) = judge(alloc, &listing.file, &problem, before, listed) else {
            return Err(CheckFault::OutOfMemory);
        };
        if let Some(answer) = stop(listed.line, judgement) {
            return answer;
        }
        before = Some(&listed.cell);
    }
    Ok(Verdict::Yes)
}

/// Judges the lines of a listing in order; the first that doesn't pass decides.
///
/// Each cell has one pair of file points for each support, and its normal as many numbers over a
/// denominator of at least 1, as the reader of listings gives them. The sum of a point x of a
/// support is `dot(den * (h(x) - h(a)), x - a, v)`, where a is the first point of the line's pair, h
/// the file's height, and v over `den` the line's normal. A line is tried in this order:
///
/// 1. Reason 1: its cell isn't greater than that of the line before.
/// 2. Overflow: a number of its cell's elimination or kernel doesn't fit.
/// 3. Reason 2: the differences of its pairs are dependent.
/// 4. Overflow: a number of one of its sums doesn't fit.
/// 5. Reason 3: the sum of some pair's second point isn't 0.
/// 6. Overflow, where heights have infinitesimals: the sum of some further point is 0, and a number
///    of the cell's scaled inverse (its denominator and its columns) or of that point's circuit
///    doesn't fit.
/// 7. Reason 4: some further point isn't above. Its sum is negative, or is 0, but for heights with
///    infinitesimals where the first number of its circuit that isn't 0, in order of rank, is positive.
/// 8. Reason 5: the normal's numbers and the denominator have a common divisor other than 1.
pub fn check(alloc: Global, listing: &Listing) -> Result<Verdict, CheckFault>
    requires listed { AreListed listing.now }
    ensures yes { HadMemory result → (result ≡ Ok verdicts.Yes) ↔ IsRight listing.now }
    ensures no { HadMemory result → (number reason : ℕ) → (result ≡ Ok (verdicts.No number reason)) ↔ IsWrong listing.now number reason }
    ensures overflow { HadMemory result → (number : ℕ) → (result ≡ Err (faults.Overflow number)) ↔ IsTooLarge listing.now number }
    // What a right listing says is true.
    ensures mixed { result ≡ Ok verdicts.Yes → AreMixed listing.now }
    // A listing that was written is never refused by a reason.
    ensures written { IsWritten listing.now → SparesWritten listing.now result }
{
    // A lift file is valid by its type, as its readers tell.
    let _dim = listing.file.dim();
    answer(alloc, listing)
}
