ghost use Rattle.std.specs.Prelude.{◌≡◌, ◌<◌, ◌+◌, ℕ, List, IsTrue, map, length, MatchOption, MatchResult, IfOk, IfErr};
ghost use Rattle.cayley.specs.Cells.{IsOf};
ghost use Rattle.cayley.specs.Problems.{IsStill};
ghost use Rattle.cayley.specs.Ties.{IsTieFree};
ghost use Rattle.cayley.specs.Valid.{IsValidProblem};
ghost use Rattle.plain_lister.specs.Choices.{HasTooMany, HavePairs};
ghost use Rattle.plain_lister.specs.LeastTies.{IsLeastTie, IsTieAnswer, IsTieFault};
ghost use Rattle.plain_lister.specs.Lists.{AllFit};
ghost use Rattle.plain_lister.specs.Order.{IsChoice};
ghost use Rattle.plain_lister.specs.Progress.{Before, IsUnfitAt};
ghost use Rattle.plain_lister.specs.TieProgress.{AreClear, IsTieAt, IsTurn, IsTieSearchFault};
ghost use Rattle.plain_lister.specs.Wheels.{Show};

use crate::choices::advance;
use crate::counting::{counts_of, excess, have_pairs};
use crate::faults::PlainFault;
use crate::lists::first_choice;
use crate::naming::named_tie;
use crate::wheels::{Wheel, wheels_of};
use cayley::{Cell, Problem, TieProof};
use cone_walls::Steps;
use reduced_rows::FromFault;
use std::alloc::Global;
use std::marker::Brand;
use std::sync::ledger::{Blank, Ledger};

// What one choice leads to: its tie, or whether there is a next choice.
#[derive(Drop)]
enum Turn {
    Tied(TieProof),
    Untied(bool),
}

// The tie of one choice.
fn tie_at<L: Ledger>(
    alloc: Global,
    problem: &Problem,
    pairs: &[(u32, u32)],
    steps: &mut Steps<L>,
) -> Result<Option<TieProof>, PlainFault>
    requires valid { IsValidProblem problem.now }
    requires of { IsOf problem.now pairs.now }
    ensures { MatchResult result (IsTieAt problem.now pairs.now) (IsUnfitAt problem.now pairs.now) }
{
    let Some(cell) = Cell::new(alloc, pairs) else {
        unreachable!();
    };
    match named_tie(alloc, problem, &cell, steps) {
        Ok(None) => Ok(None),
        Ok(Some(tie)) => Ok(Some(TieProof {
            cell,
            time: tie.time,
            first: tie.first,
            second: tie.second,
        })),
        Err(FromFault::Overflow) => Err(PlainFault::Overflow { cell }),
        Err(FromFault::OutOfMemory) => Err(PlainFault::OutOfMemory),
    }
}

// Looks for a tie of this choice, and without one goes to the next choice.
fn take_turn<L: Ledger>(
    alloc: Global,
    problem: &Problem,
    wheels: &mut [Wheel],
    pairs: &mut [(u32, u32)],
    steps: &mut Steps<L>,
) -> Result<Turn, PlainFault>
    ghost counts: { List ℕ }
    requires valid { IsValidProblem problem.now }
    requires counts { counts ≡ map length problem.now.supports }
    requires choice { IsChoice counts pairs.old }
    requires shown { Show counts wheels.old pairs.old }
    requires clear { AreClear problem.now (Before pairs.old) }
    ensures { MatchResult result (IsTurn problem.now counts pairs.old pairs.new wheels.new) (IsTieSearchFault problem.now) }
{
    match tie_at(alloc, problem, pairs, steps) {
        Ok(None) => Ok(Turn::Untied(advance(wheels, pairs))),
        Ok(Some(tie)) => Ok(Turn::Tied(tie)),
        Err(fault) => Err(fault),
    }
}

// Searches all choices in cell order.
fn search_choices<L: Ledger>(
    alloc: Global,
    problem: &Problem,
    counts: &[u32],
    steps: &mut Steps<L>,
) -> Result<Option<TieProof>, PlainFault>
    requires valid { IsValidProblem problem.now }
    requires counts { counts.now ≡ map length problem.now.supports }
    requires pairs { HavePairs counts.now }
    ensures { MatchResult result (IsTieAnswer problem.now) (IsTieSearchFault problem.now) }
{
    let Ok(mut pairs) = first_choice(alloc, counts) else {
        return Err(PlainFault::OutOfMemory);
    };
    let Ok(mut wheels) = wheels_of(alloc, counts) else {
        return Err(PlainFault::OutOfMemory);
    };
    let mut going = true;
    while going {
        match take_turn(alloc, problem, &mut wheels, &mut pairs, steps) {
            Ok(Turn::Untied(on)) => going = on,
            Ok(Turn::Tied(tie)) => return Ok(Some(tie)),
            Err(fault) => return Err(fault),
        }
    }
    Ok(None)
}

// The tie of a problem whose supports have these numbers of points.
fn tie_counted<L: Ledger>(
    alloc: Global,
    problem: &Problem,
    counts: &[u32],
    steps: &mut Steps<L>,
) -> Result<Option<TieProof>, PlainFault>
    requires valid { IsValidProblem problem.now }
    requires counts { counts.now ≡ map length problem.now.supports }
    ensures { MatchResult result (λ tie. ¬ (HasTooMany problem.now) × IsTieAnswer problem.now tie) (IsTieFault problem.now) }
{
    if !have_pairs(counts) {
        return Ok(None);
    }
    match excess(counts) {
        Some(choices) => Err(PlainFault::TooMany { choices }),
        None => search_choices(alloc, problem, counts, steps),
    }
}

// The tie of a problem, by a counter of its own.
fn tie_by<L: Ledger>(
    alloc: Global,
    problem: &Problem,
    counts: &[u32],
    blank: Blank,
) -> Result<Option<TieProof>, PlainFault>
    requires ledger { (blank.name ≡ L.name) × (blank.parts ≡ L.parts) × (0 < blank.parts) }
    requires valid { IsValidProblem problem.now }
    requires counts { counts.now ≡ map length problem.now.supports }
    ensures { MatchResult result (λ tie. ¬ (HasTooMany problem.now) × IsTieAnswer problem.now tie) (IsTieFault problem.now) }
{
    let mut steps = Steps::<L>::new(blank);
    tie_counted(alloc, problem, counts, &mut steps)
}

/// Whether a problem of either version whose file points rest has no tie, over all its points: file
/// points and corners. Every choice of one pair of points from each support is tried in cell order,
/// up to the first that has a tie or doesn't fit.
///
/// `None`: no cell has a tie at any time, and the working of each fits. `Some`: the tie that is named
/// for the least cell that has one, at a time in lowest terms. Where some line of its further points
/// is zero at all times it is that of the first such point, with no second one, at the first time at
/// which no line is negative; without a first time at the last, without either at 0. Else it is that
/// of the first two points whose lines are zero at the first such time, or, where fewer than two are,
/// at the last.
///
/// `TooMany` exactly where there are more than 1,000,000 choices; a support of one point leaves
/// none. Else `Overflow` exactly where the least cell that has a tie or doesn't fit doesn't fit: a
/// number of its elimination, kernel, denominator, normal and wall lines, and in version 2 of the
/// circuits of its further points.
pub fn is_tie_free(alloc: Global, problem: &Problem) -> Result<Option<TieProof>, PlainFault>
    requires still { IsStill problem.now }
    // None: no cell has a tie, and all cells fit. Some: the tie named for the least cell that has a
    // tie or doesn't fit, which fits.
    ensures free { IfOk result (λ found. MatchOption found (IsTieFree problem.now) (λ _. Unit {0})) }
    ensures fits { IfOk result (λ found. MatchOption found (AllFit problem.now) (λ _. Unit {0})) }
    ensures named { IfOk result (λ found. MatchOption found (Unit {0}) (IsLeastTie problem.now)) }
    // An answer: there are not too many choices.
    ensures few { IfOk result (λ _. ¬ (HasTooMany problem.now)) }
    ensures refused { IfErr result (IsTieFault problem.now) }
{
    let Ok(counts) = counts_of(alloc, problem) else {
        return Err(PlainFault::OutOfMemory);
    };
    let _dim = problem.dim();
    tie_by::<Brand>(alloc, problem, &counts, Blank::new(1))
}
