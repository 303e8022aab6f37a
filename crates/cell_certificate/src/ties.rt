ghost use Rattle.std.specs.Prelude.{◌≡◌, ◌==◌, if◌then◌else◌, ◌+◌, ◌-◌, ◌*◌, ◌≤◌, ◌↔◌, ◌∷◌, [], pos, ◌<ℤ◌, ℕ, IsTrue, MatchResult, length};
ghost use Rattle.int_vectors.specs.Vectors.{IsPositive};
ghost use Rattle.reduced_rows.specs.Refusals.{IsFromFault};
ghost use Rattle.cayley.specs.Files.{plain_problem};
ghost use Rattle.cayley.specs.Problems.{version2};
ghost use Rattle.inner_normal.specs.Coefficients.{numbers_of};
ghost use Rattle.inner_normal.specs.Inverses.{IsInverseOf};
ghost use Rattle.inner_normal.specs.Orders as orders;
ghost use Rattle.inner_normal.specs.Orders.{ordered};
ghost use Rattle.cell_certificate.specs.Ties.{leading, IsLevelLine, FitsTieAt, IsOverAt, FitTies, AreOver};

use crate::sides::rise;
use cayley::{Cell, LiftFile, Problem};
use inner_normal::{ScaledInverse, coefficients_at};
use int_vectors::IntVec;
use listing_text::ListedCell;
use reduced_rows::FromFault;
use std::alloc::Global;

// The first of three numbers that isn't 0, or 0.
fn leading_of(numbers: [i128; 3]) -> i128
    ensures { result ≡ leading numbers }
{
    let [x, y, z] = numbers;
    if x != 0 {
        x
    } else if y != 0 {
        y
    } else {
        z
    }
}

// The numbers of a pair's points and of the further point at `position` of their support, in order
// of position.
fn three(pair: (u32, u32), numbers: (i128, i128), position: u32, last: i128) -> [i128; 3]
    ensures { result ≡ orders.three pair numbers position last }
{
    if position < pair.0 {
        [last, numbers.0, numbers.1]
    } else if position < pair.1 {
        [numbers.0, last, numbers.1]
    } else {
        [numbers.0, numbers.1, last]
    }
}

// The first number that isn't 0 of the points of the support at place `k`, in order of position, or 0.
// The further point is of `support`.
fn leading_at(
    k: usize,
    support: u32,
    pair: (u32, u32),
    numbers: (i128, i128),
    position: u32,
    last: i128,
) -> i128
    requires { 1 ≤ support }
    ensures { result ≡ leading (if k == support - 1 then orders.three pair numbers position last else orders.two numbers) }
{
    if k == support as usize - 1 {
        leading_of(three(pair, numbers, position, last))
    } else {
        leading_of([numbers.0, numbers.1, 0])
    }
}

// Whether the first number of a circuit that isn't 0, in order of support and position, is positive.
// The further point is that of `support` at `position`, which count from 1.
fn is_circuit_positive(cell: &Cell, support: u32, position: u32, coefficients: &IntVec) -> bool
    requires support { 1 ≤ support }
    requires count { length coefficients.now ≡ 2 * length cell.now + 1 }
    ensures { IsTrue result ↔ IsPositive (ordered cell.now (support - 1) position (numbers_of coefficients.now)) }
{
    let pairs = cell.pairs();
    let last = coefficients.get(2 * pairs.len());
    for k in 0..pairs.len() {
        let numbers = (coefficients.get(2 * k), coefficients.get(2 * k + 1));
        let first = leading_at(k, support, pairs[k], numbers, position, last);
        if first != 0 {
            return first > 0;
        }
    }
    false
}

// Whether the point of `support` at `position`, which count from 1, is above where it is neither of
// the pair. `Overflow` exactly where it is such a point of sum 0 and a number of its circuit doesn't
// fit.
fn is_point_over(
    alloc: Global,
    file: &LiftFile,
    problem: &Problem,
    inverse: &ScaledInverse,
    listed: &ListedCell,
    support: u32,
    position: u32,
) -> Result<bool, FromFault>
    requires same { problem.now ≡ plain_problem file.now }
    requires version { file.now.version ≡ version2 }
    requires level { IsLevelLine problem.now listed.now }
    requires inverse { IsInverseOf problem.now listed.now.cell inverse.now }
    requires support { (1 ≤ support) × (support ≤ problem.now.dimension) }
    requires position { 1 ≤ position }
    ensures { let p = problem.now in let x = listed.now in
        let fits = FitsTieAt p x.cell x.normal.v x.normal.den inverse.now (support - 1) position in MatchResult result
        (λ over. fits × (IsTrue over ↔ IsOverAt p x.cell (support - 1) position))
        (IsFromFault fits) }
{
    let points = file.support(support);
    let pair = listed.cell.pairs()[support as usize - 1];
    if position == pair.0 || position == pair.1 || points.len() < position as usize {
        return Ok(true);
    }
    let first = &points[pair.0 as usize - 1];
    let Some(sum) = rise(&listed.normal, first, &points[position as usize - 1]) else {
        return Err(FromFault::Overflow);
    };
    if sum != 0 {
        return Ok(sum > 0);
    }
    let coefficients = match coefficients_at(
        alloc,
        problem,
        &listed.cell,
        inverse,
        support,
        position,
    ) {
        Ok(made) => made,
        Err(fault) => return Err(fault),
    };
    Ok(is_circuit_positive(&listed.cell, support, position, &coefficients))
}

// The same for all points of a support.
fn is_support_over(
    alloc: Global,
    file: &LiftFile,
    problem: &Problem,
    inverse: &ScaledInverse,
    listed: &ListedCell,
    support: u32,
) -> Result<bool, FromFault>
    requires same { problem.now ≡ plain_problem file.now }
    requires version { file.now.version ≡ version2 }
    requires level { IsLevelLine problem.now listed.now }
    requires inverse { IsInverseOf problem.now listed.now.cell inverse.now }
    requires support { (1 ≤ support) × (support ≤ problem.now.dimension) }
    ensures { let p = problem.now in let x = listed.now in
        let fits = (c : ℕ) → FitsTieAt p x.cell x.normal.v x.normal.den inverse.now (support - 1) c in MatchResult result
        (λ over. fits × (IsTrue over ↔ ((c : ℕ) → IsOverAt p x.cell (support - 1) c)))
        (IsFromFault fits) }
{
    let mut over = true;
    for k in 0..problem.count(support) {
        let own = match is_point_over(alloc, file, problem, inverse, listed, support, k + 1) {
            Ok(own) => own,
            Err(fault) => return Err(fault),
        };
        over = own && over;
    }
    Ok(over)
}

/// Whether each further point is above under the normal with its infinitesimals: its sum is positive,
/// or is 0 and the first number of its circuit that isn't 0, in order of rank, is positive.
/// `Overflow` exactly where a number of the circuit of a point of sum 0 doesn't fit.
pub(crate) fn are_over(
    alloc: Global,
    file: &LiftFile,
    problem: &Problem,
    inverse: &ScaledInverse,
    listed: &ListedCell,
) -> Result<bool, FromFault>
    requires same { problem.now ≡ plain_problem file.now }
    requires version { file.now.version ≡ version2 }
    requires level { IsLevelLine problem.now listed.now }
    requires inverse { IsInverseOf problem.now listed.now.cell inverse.now }
    ensures { let p = problem.now in let x = listed.now in
        let fits = FitTies p x.cell x.normal.v x.normal.den inverse.now in MatchResult result
        (λ over. fits × (IsTrue over ↔ AreOver p x.cell))
        (IsFromFault fits) }
{
    let mut over = true;
    for k in 0..problem.dim() {
        let own = match is_support_over(alloc, file, problem, inverse, listed, k as u32 + 1) {
            Ok(own) => own,
            Err(fault) => return Err(fault),
        };
        over = own && over;
    }
    Ok(over)
}
