// The cell lines of a log against the cells that are expected.
ghost use Rattle.std.specs.Prelude.{◌≡◌, ◌↔◌, ◌∷◌, IsTrue, MatchOption, MatchResult};
ghost use Rattle.listing_text.specs.Forms.{found_of};
ghost use Rattle.log_check.specs.Verdicts.{IsNext, Expects, IsRightLog, IsHalt};

use crate::refusal::{Halt, Refusal};
use cayley::{FoundCell, Normal};
use listing_text::ListedCell;
use path_log::PathLog;

// Whether both have the same numbers over the same denominator.
fn is_same(x: &Normal, y: &Normal) -> bool
    ensures { IsTrue result ↔ (x.now ≡ y.now) }
{
    x.den == y.den && x.v.as_slice().cmp(y.v.as_slice()).is_eq()
}

fn is_listed(listed: &ListedCell, next: &FoundCell) -> bool
    ensures { IsTrue result ↔ (found_of listed.now ≡ next.now) }
{
    listed.cell.cmp(&next.cell).is_eq() && is_same(&listed.normal, &next.normal)
}

// What is expected behind a listed cell. `None` exactly where it isn't the next of the cells that are
// left.
fn rest_behind<'a>(listed: &ListedCell, left: &'a [FoundCell]) -> Option<&'a [FoundCell]>
    ensures { MatchOption result (¬ (IsNext (found_of listed.now) left.now)) (λ rest. left.now ≡ found_of listed.now ∷ rest.now) }
{
    let (next, rest) = left.split_first()?;
    if is_listed(listed, next) {
        Some(rest)
    } else {
        None
    }
}

/// Compares the listed cells with the expected ones, line by line.
pub(crate) fn compare(log: &PathLog, expected: &[FoundCell]) -> Result<(), Halt>
    requires { Expects log.now expected.now }
    ensures { MatchResult result (λ same. IsRightLog log.now) (IsHalt log.now) }
{
    let mut left = expected;
    for listed in &log.part.cells {
        let Some(rest) = rest_behind(listed, left) else {
            let line = listed.line;
            let refusal = Refusal::NotExpected;
            return Err(Halt::Refused { line, refusal });
        };
        left = rest;
    }
    if !left.is_empty() {
        let line = log.part.end_line;
        let refusal = Refusal::Missing;
        return Err(Halt::Refused { line, refusal });
    }
    Ok(())
}
