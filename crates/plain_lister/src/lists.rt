ghost use Rattle.cayley.specs.Stored.{cells_of};
ghost use Rattle.std.specs.Prelude.{◌≡◌, ◌<◌, ◌≤◌, ◌+◌, ◌↔◌, ℕ, Bool, IsTrue, List, map, length, MatchResult, IfOk, IfErr};
ghost use Rattle.cayley.specs.Mixed.{IsMixedCell};
ghost use Rattle.cayley.specs.Cells.{IsListOf};
ghost use Rattle.cayley.specs.Problems.{IsStill, HasNoCorners};
ghost use Rattle.cayley.specs.Valid.{IsValidProblem};
ghost use Rattle.int_vectors.specs.Vectors.{Each};
ghost use Rattle.plain_lister.specs.Choices.{HasTooMany, HavePairs};
ghost use Rattle.plain_lister.specs.Lists.{HasLowestNormal, AllFit, IsPlainFault};
ghost use Rattle.plain_lister.specs.Order.{IsChoice, firsts, left_after};
ghost use Rattle.plain_lister.specs.Wheels.{Show};
ghost use Rattle.plain_lister.specs.Progress.{IsDone, Before, Tried, IsSearchFault, steps_left};

use crate::choices::advance;
use crate::counting::{counts_of, excess, have_pairs};
use crate::faults::PlainFault;
use crate::trying::try_choice;
use crate::wheels::{Wheel, wheels_of};
use cayley::{FoundCell, Problem};
use cone_walls::Steps;
use std::alloc::{AllocError, Global};
use std::marker::Brand;
use std::sync::ledger::{Blank, Ledger};

// Tries this choice, goes to the next one, and tells whether there is one.
fn turn<L: Ledger>(
    alloc: Global,
    problem: &Problem,
    wheels: &mut [Wheel],
    pairs: &mut [(u32, u32)],
    steps: &mut Steps<L>,
    found: &mut Vec<FoundCell>,
) -> Result<bool, PlainFault>
    ghost counts: { List ℕ }
    requires valid { IsValidProblem problem.now }
    requires still { IsStill problem.now }
    requires alone { HasNoCorners problem.now }
    requires counts { counts ≡ map length problem.now.supports }
    requires choice { IsChoice counts pairs.old }
    requires shown { Show counts wheels.old pairs.old }
    requires done { IsDone problem.now (Before pairs.old) found.old.items }
    ensures { MatchResult result
        (λ going. (IsTrue going → IsChoice counts pairs.new × Show counts wheels.new pairs.new) × IsDone problem.now (Tried going pairs.new) found.new.items
        × steps_left going counts pairs.new < left_after counts pairs.old + 1)
        (IsSearchFault problem.now) }
{
    if let Err(fault) = try_choice(alloc, problem, pairs, steps, found) {
        return Err(fault);
    }
    Ok(advance(wheels, pairs))
}

// The first pair of each support.
pub(crate) fn first_choice(alloc: Global, counts: &[u32]) -> Result<Vec<(u32, u32)>, AllocError>
    ensures { IfOk result (λ pairs. pairs.items ≡ firsts counts.now) }
{
    let mut pairs = Vec::with_capacity(alloc, counts.len())?;
    for _count in counts {
        pairs.push((1, 2))?;
    }
    Ok(pairs)
}

// Tries all choices in cell order.
fn list_choices<L: Ledger>(
    alloc: Global,
    problem: &Problem,
    counts: &[u32],
    steps: &mut Steps<L>,
) -> Result<Vec<FoundCell>, PlainFault>
    requires valid { IsValidProblem problem.now }
    requires still { IsStill problem.now }
    requires alone { HasNoCorners problem.now }
    requires counts { counts.now ≡ map length problem.now.supports }
    requires pairs { HavePairs counts.now }
    ensures { MatchResult result (λ found. IsDone problem.now (λ _. Unit {0}) found.items) (IsSearchFault problem.now) }
{
    let Ok(mut pairs) = first_choice(alloc, counts) else {
        return Err(PlainFault::OutOfMemory);
    };
    let Ok(mut wheels) = wheels_of(alloc, counts) else {
        return Err(PlainFault::OutOfMemory);
    };
    let mut found = Vec::new(alloc);
    let mut going = true;
    while going {
        match turn(alloc, problem, &mut wheels, &mut pairs, steps, &mut found) {
            Ok(on) => going = on,
            Err(fault) => return Err(fault),
        }
    }
    Ok(found)
}

// No choice at all leaves an empty list.
fn no_choices(alloc: Global, problem: &Problem, counts: &[u32]) -> Vec<FoundCell>
    requires valid { IsValidProblem problem.now }
    requires alone { HasNoCorners problem.now }
    requires counts { counts.now ≡ map length problem.now.supports }
    requires pairs { ¬ (HavePairs counts.now) }
    ensures few { ¬ (HasTooMany problem.now) }
    ensures done { IsDone problem.now (λ _. Unit {0}) result.items }
{
    Vec::new(alloc)
}

// The mixed cells of a problem whose supports have these numbers of points.
fn list_counted<L: Ledger>(
    alloc: Global,
    problem: &Problem,
    counts: &[u32],
    steps: &mut Steps<L>,
) -> Result<Vec<FoundCell>, PlainFault>
    requires valid { IsValidProblem problem.now }
    requires still { IsStill problem.now }
    requires alone { HasNoCorners problem.now }
    requires counts { counts.now ≡ map length problem.now.supports }
    ensures { MatchResult result
        (λ found. ¬ (HasTooMany problem.now) × IsDone problem.now (λ _. Unit {0}) found.items)
        (IsPlainFault problem.now) }
{
    if !have_pairs(counts) {
        return Ok(no_choices(alloc, problem, counts));
    }
    match excess(counts) {
        Some(choices) => Err(PlainFault::TooMany { choices }),
        None => list_choices(alloc, problem, counts, steps),
    }
}

// The mixed cells of a problem, by a counter of its own.
fn list_by<L: Ledger>(
    alloc: Global,
    problem: &Problem,
    counts: &[u32],
    blank: Blank,
) -> Result<Vec<FoundCell>, PlainFault>
    requires ledger { (blank.name ≡ L.name) × (blank.parts ≡ L.parts) × (0 < blank.parts) }
    requires valid { IsValidProblem problem.now }
    requires still { IsStill problem.now }
    requires alone { HasNoCorners problem.now }
    requires counts { counts.now ≡ map length problem.now.supports }
    ensures { MatchResult result
        (λ found. ¬ (HasTooMany problem.now) × IsDone problem.now (λ _. Unit {0}) found.items)
        (IsPlainFault problem.now) }
{
    let mut steps = Steps::<L>::new(blank);
    list_counted(alloc, problem, counts, &mut steps)
}

/// The mixed cells of a problem of either version without corners, whose points rest, in cell order,
/// with their normals in lowest terms: every choice of one pair of points from each support is tried.
///
/// `TooMany` exactly where there are more than 1,000,000 choices; a support of one point leaves
/// none. Else `Overflow` exactly where a number of some choice's working doesn't fit: of its
/// elimination, kernel, denominator, normal and wall lines, and in version 2 of the circuits of its
/// further points.
pub fn plain_list(alloc: Global, problem: &Problem) -> Result<Vec<FoundCell>, PlainFault>
    requires alone { HasNoCorners problem.now }
    requires still { IsStill problem.now }
    // Ok: exactly the mixed cells, each once, in cell order.
    ensures listed { IfOk result (λ found. IsListOf (IsMixedCell problem.now) (cells_of found.items)) }
    ensures lowest { IfOk result (λ found. Each found.items (HasLowestNormal problem.now)) }
    // Neither refusal has its cause.
    ensures complete { IfOk result (λ _. ¬ (HasTooMany problem.now) × AllFit problem.now) }
    ensures refused { IfErr result (IsPlainFault problem.now) }
{
    let Ok(counts) = counts_of(alloc, problem) else {
        return Err(PlainFault::OutOfMemory);
    };
    let _dim = problem.dim();
    list_by::<Brand>(alloc, problem, &counts, Blank::new(1))
}
