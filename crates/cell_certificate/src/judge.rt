ghost use Rattle.std.specs.Prelude.{◌≡◌, ◌↔◌, ◌∷◌, ◌<ℤ◌, pos, Option, None, Some, IsTrue, IfOk, MatchResult};
ghost use Rattle.std.specs.Option.{option_map};
ghost use Rattle.reduced_rows.specs.CellRefusals.{IsEliminated};
ghost use Rattle.reduced_rows.specs.Refusals.{IsFromFault};
ghost use Rattle.cayley.specs.Cells.{IsIndependent};
ghost use Rattle.cayley.specs.Files.{plain_problem};
ghost use Rattle.cayley.specs.Mixed.{IsCoprime};
ghost use Rattle.cayley.specs.Problems.{version2};
ghost use Rattle.cayley.specs.Rows.{edge_rows};
ghost use Rattle.cell_certificate.specs.Judgements.{HasTies, HasLeast, IsNormalJudged, IsJudged};
ghost use Rattle.cell_certificate.specs.Sides.{ShowsAll};
ghost use Rattle.cell_certificate.specs.Tests.{Follows};
ghost use Rattle.cell_certificate.specs.Ties.{IsLevelLine};
ghost use Rattle.cell_certificate.specs.Written.{IsListed};

use crate::judgement::Judgement;
use crate::sides::{Sides, all_sides};
use crate::ties::are_over;
use cayley::{Cell, LiftFile, Normal, Problem};
use inner_normal::{CellFault, Eliminated};
use listing_text::ListedCell;
use reduced_rows::FromFault;
use std::alloc::Global;
use std::cmp::Ordering;
use wide_int::{OutOfMemory, gcd};

// Whether the cell is greater than that of the line before, if there is one.
fn follows(before: Option<&Cell>, cell: &Cell) -> bool
    ensures { IsTrue result ↔ Follows (option_map (λ b. b.now) before.entry) cell.now }
{
    match before {
        Some(before) => before.cmp(cell) == Ordering::Less,
        None => true,
    }
}

// Whether no number but 1 divides the denominator and each number of the normal.
fn is_lowest(normal: &Normal) -> bool
    requires { pos 0 <ℤ normal.now.den }
    ensures { IsTrue result ↔ IsCoprime (normal.now.den ∷ normal.now.v) }
{
    gcd(normal.den, normal.v.content()) == 1
}

// Whether the heights of a file have infinitesimals.
fn is_perturbed(file: &LiftFile) -> bool
    ensures { IsTrue result ↔ (file.now.version ≡ version2) }
{
    file.version() == 2
}

// Whether each further point is above, by what the sums tell. `Overflow` exactly where the circuit of
// a point of sum 0 is needed and a number of it doesn't fit.
fn is_least(
    alloc: Global,
    file: &LiftFile,
    problem: &Problem,
    eliminated: &Eliminated,
    listed: &ListedCell,
    sides: Sides,
) -> Result<bool, FromFault>
    requires same { problem.now ≡ plain_problem file.now }
    requires level { IsLevelLine problem.now listed.now }
    requires eliminated { IsEliminated problem.now.dimension (edge_rows problem.now listed.now.cell) eliminated.now }
    requires sides { ShowsAll problem.now listed.now.cell listed.now.normal.v listed.now.normal.den sides }
    ensures { MatchResult result
        (λ least. HasTies problem.now listed.now × (IsTrue least ↔ HasLeast problem.now listed.now))
        (IsFromFault (HasTies problem.now listed.now)) }
{
    // A problem is valid by its type, as its readers tell.
    let _dim = problem.dim();
    if sides.untied {
        return Ok(sides.above);
    }
    if !is_perturbed(file) {
        return Ok(sides.above);
    }
    let inverse = match eliminated.inverse(alloc) {
        Ok(inverse) => inverse,
        Err(fault) => return Err(fault),
    };
    are_over(alloc, file, problem, &inverse, listed)
}

// What is said of a line whose cell is in order and independent, by its normal.
fn judge_normal(
    alloc: Global,
    file: &LiftFile,
    problem: &Problem,
    eliminated: &Eliminated,
    listed: &ListedCell,
) -> Result<Judgement, OutOfMemory>
    requires listed { IsListed problem.now listed.now }
    requires same { problem.now ≡ plain_problem file.now }
    requires independent { IsIndependent problem.now listed.now.cell }
    requires eliminated { IsEliminated problem.now.dimension (edge_rows problem.now listed.now.cell) eliminated.now }
    ensures { IfOk result (λ judgement. IsNormalJudged problem.now listed.now judgement) }
{
    let Some(sides) = all_sides(file, listed) else {
        return Ok(Judgement::Unfit);
    };
    if !sides.level {
        return Ok(Judgement::NotLevel);
    }
    let least = match is_least(alloc, file, problem, eliminated, listed, sides) {
        Ok(least) => least,
        Err(FromFault::Overflow) => return Ok(Judgement::Unfit),
        Err(FromFault::OutOfMemory) => return Err(OutOfMemory),
    };
    if !least {
        return Ok(Judgement::NotLeast);
    }
    if is_lowest(&listed.normal) {
        Ok(Judgement::Passes)
    } else {
        Ok(Judgement::NotLowest)
    }
}

// What is said of a line after the cell of the line before, if there is one.
pub(crate) fn judge(
    alloc: Global,
    file: &LiftFile,
    problem: &Problem,
    before: Option<&Cell>,
    listed: &ListedCell,
) -> Result<Judgement, OutOfMemory>
    requires listed { IsListed problem.now listed.now }
    requires same { problem.now ≡ plain_problem file.now }
    ensures { IfOk result (λ judgement. IsJudged problem.now (option_map (λ b. b.now) before.entry) listed.now judgement) }
{
    if !follows(before, &listed.cell) {
        return Ok(Judgement::Order);
    }
    match Eliminated::of(alloc, problem, &listed.cell) {
        Ok(eliminated) => judge_normal(alloc, file, problem, &eliminated, listed),
        Err(CellFault::Dependent { .. }) => Ok(Judgement::Dependent),
        Err(CellFault::Overflow) => Ok(Judgement::Unfit),
        Err(CellFault::OutOfMemory) => Err(OutOfMemory),
    }
}
