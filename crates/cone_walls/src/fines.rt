// The infinitesimals of the wall lines, which points with a rank give them.
ghost use Rattle.std.specs.Prelude.{◌≡◌, ◌<◌, ◌≤◌, ◌++◌, ◌+◌, ◌-◌, ◌*◌, [], MatchResult, IfOk, All, length, map};
ghost use Rattle.wide_int.specs.Whole.{FitsWhole};
ghost use Rattle.int_vectors.specs.Vectors.{Each};
ghost use Rattle.cayley.specs.Cells.{IsOf};
ghost use Rattle.cayley.specs.Dependencies.{IsFurtherAt, number_at};
ghost use Rattle.cayley.specs.Problems.{point_at};
ghost use Rattle.cayley.specs.Rows.{edge_rows};
ghost use Rattle.cayley.specs.Valid.{support_at};
ghost use Rattle.crossing.specs.Lines.{FitsLine};
ghost use Rattle.inner_normal.specs.Coefficients.{difference, FitsCoefficients, pairs_of};
ghost use Rattle.reduced_rows.specs.CellRefusals.{IsEliminated};
ghost use Rattle.reduced_rows.specs.Refusals.{IsFromFault};
ghost use Rattle.cone_walls.specs.Fines.{HasFine};
ghost use Rattle.cone_walls.specs.Listed.{coarse};
ghost use Rattle.cone_walls.specs.Parts as listed;
ghost use Rattle.cone_walls.specs.Parts.{part_of, two_points, three_points, points_in, all_points, IsFineOf, IsRefined, FitsCircuitOf, AreRefined, IsFurtherLine};
ghost use Rattle.cone_walls.specs.Places.{AreOfFurtherPoints};
ghost use Rattle.cone_walls.specs.Workings.{FitsCircuits};

use cayley::{Cell, Problem};
use crossing::{Fine, WallLine};
use inner_normal::{Eliminated, ScaledInverse, coefficients_by};
use int_vectors::IntVec;
use lex_height::LexPart;
use reduced_rows::FromFault;
use std::alloc::{AllocError, Global};

// No infinitesimals; takes no memory.
#[inline(always)]
pub(crate) fn nothing(alloc: Global) -> Fine
    ensures { result ≡ [] }
{
    Fine::from_vec(Vec::new(alloc))
}

// Appends the part of a rank and a number, unless one of them is 0.
fn push_rank(parts: &mut Vec<LexPart>, rank: u32, number: i128) -> Result<(), AllocError>
    ensures { IfOk result (λ _. parts.new.items ≡ parts.old.items ++ part_of rank number) }
{
    if rank == 0 {
        return Ok(());
    }
    if number == 0 {
        return Ok(());
    }
    parts.push(LexPart { rank, num: number })?;
    Ok(())
}

// Appends the part of the point at a position of support i, which has this number.
fn push_point(
    parts: &mut Vec<LexPart>,
    problem: &Problem,
    i: u32,
    position: u32,
    number: i128,
) -> Result<(), AllocError>
    requires least { 1 ≤ i }
    requires greatest { i ≤ problem.now.dimension }
    requires position { (1 ≤ position) × (position ≤ length (support_at problem.now i)) }
    ensures { IfOk result (λ _. parts.new.items ≡ parts.old.items ++ part_of (point_at (support_at problem.now i) position).rank number) }
{
    push_rank(parts, problem.rank(i, position), number)
}

// Appends the parts of a pair of support i.
fn push_pair(
    parts: &mut Vec<LexPart>,
    problem: &Problem,
    i: u32,
    pair: (u32, u32),
    numbers: (i128, i128),
) -> Result<(), AllocError>
    requires least { 1 ≤ i }
    requires greatest { i ≤ problem.now.dimension }
    requires pair { (1 ≤ pair.0) × (pair.0 < pair.1) × (pair.1 ≤ length (support_at problem.now i)) }
    ensures { IfOk result (λ _. parts.new.items ≡ parts.old.items ++ listed.parts_of (two_points (support_at problem.now i) pair numbers)) }
{
    push_point(parts, problem, i, pair.0, numbers.0)?;
    push_point(parts, problem, i, pair.1, numbers.1)?;
    Ok(())
}

// Appends the parts of a pair of support i and of its further point, in order of position.
fn push_own(
    parts: &mut Vec<LexPart>,
    problem: &Problem,
    i: u32,
    pair: (u32, u32),
    numbers: (i128, i128),
    position: u32,
    last: i128,
) -> Result<(), AllocError>
    requires least { 1 ≤ i }
    requires greatest { i ≤ problem.now.dimension }
    requires pair { (1 ≤ pair.0) × (pair.0 < pair.1) × (pair.1 ≤ length (support_at problem.now i)) }
    requires position { (1 ≤ position) × (position ≤ length (support_at problem.now i)) }
    ensures { IfOk result (λ _. parts.new.items ≡ parts.old.items ++ listed.parts_of (three_points (support_at problem.now i) pair numbers position last)) }
{
    if position < pair.0 {
        push_point(parts, problem, i, position, last)?;
        push_pair(parts, problem, i, pair, numbers)?;
        return Ok(());
    }
    if position < pair.1 {
        push_point(parts, problem, i, pair.0, numbers.0)?;
        push_point(parts, problem, i, position, last)?;
        push_point(parts, problem, i, pair.1, numbers.1)?;
        return Ok(());
    }
    push_pair(parts, problem, i, pair, numbers)?;
    push_point(parts, problem, i, position, last)?;
    Ok(())
}

// The numbers of the pair of support i in a circuit.
fn numbers_at(numbers: &IntVec, i: u32) -> (i128, i128)
    requires least { 1 ≤ i }
    requires greatest { 2 * (i - 1) + 1 < length numbers.now }
    ensures { result ≡ number_at (pairs_of numbers.now) (i - 1) }
{
    let place = 2 * (i as usize - 1);
    (numbers.get(place), numbers.get(place + 1))
}

// Appends the parts of the points of support i in the circuit of a further point.
fn push_points(
    parts: &mut Vec<LexPart>,
    problem: &Problem,
    i: u32,
    pair: (u32, u32),
    numbers: (i128, i128),
    support: u32,
    position: u32,
    last: i128,
) -> Result<(), AllocError>
    requires least { 1 ≤ i }
    requires greatest { i ≤ problem.now.dimension }
    requires pair { (1 ≤ pair.0) × (pair.0 < pair.1) × (pair.1 ≤ length (support_at problem.now i)) }
    requires support { 1 ≤ support }
    requires position { (1 ≤ position) × (position ≤ length (support_at problem.now support)) }
    ensures { IfOk result (λ _. parts.new.items ≡ parts.old.items ++ listed.parts_of (points_in (i - 1) (support - 1) position last (support_at problem.now i) pair numbers)) }
{
    if i == support {
        push_own(parts, problem, i, pair, numbers, position, last)
    } else {
        push_pair(parts, problem, i, pair, numbers)
    }
}

// The parts of the circuit with these numbers, whose last is of the point at a position of a support.
fn parts_of(
    alloc: Global,
    problem: &Problem,
    cell: &Cell,
    numbers: &IntVec,
    support: u32,
    position: u32,
    last: i128,
) -> Result<Vec<LexPart>, AllocError>
    requires of { IsOf problem.now cell.now }
    requires count { length numbers.now ≡ 2 * length cell.now + 1 }
    requires support { 1 ≤ support }
    requires position { (1 ≤ position) × (position ≤ length (support_at problem.now support)) }
    ensures { IfOk result (λ parts. parts.items ≡ listed.parts_of (all_points 0 (support - 1) position last (pairs_of numbers.now) problem.now.supports cell.now)) }
{
    let _dim = problem.dim();
    let mut parts = Vec::with_capacity(alloc, numbers.len())?;
    for (k, pair) in cell.pairs().iter().enumerate() {
        let i = k as u32 + 1;
        let both = numbers_at(numbers, i);
        push_points(&mut parts, problem, i, *pair, both, support, position, last)?;
    }
    Ok(parts)
}

// The infinitesimals of the further point of a support at a position.
fn fine_of(
    alloc: Global,
    problem: &Problem,
    cell: &Cell,
    inverse: &ScaledInverse,
    support: u32,
    position: u32,
) -> Result<Fine, FromFault>
    requires cell { IsOf problem.now cell.now }
    requires point { (1 ≤ support) × (support ≤ problem.now.dimension) × IsFurtherAt problem.now cell.now (support - 1) position }
    requires count { length inverse.now.columns ≡ problem.now.dimension }
    requires columns { Each inverse.now.columns (λ column. length column ≡ problem.now.dimension) }
    ensures { let fits = FitsCoefficients (support - 1) inverse.now (difference problem.now cell.now (support - 1) position) in MatchResult result
        (λ fine. fits × IsFineOf problem.now cell.now inverse.now (support - 1) position fine)
        (IsFromFault fits) }
{
    let numbers = coefficients_by(alloc, problem, cell, inverse, support, position)?;
    // Its numbers fit, as its reader tells.
    let _entries = numbers.as_slice();
    let last = inverse.den();
    let parts = parts_of(alloc, problem, cell, &numbers, support, position, last)?;
    Ok(Fine::from_vec(parts))
}

// The line with its infinitesimals.
fn refined(
    alloc: Global,
    problem: &Problem,
    cell: &Cell,
    inverse: &ScaledInverse,
    line: WallLine,
) -> Result<WallLine, FromFault>
    requires cell { IsOf problem.now cell.now }
    requires point { IsFurtherLine problem.now cell.now line }
    requires count { length inverse.now.columns ≡ problem.now.dimension }
    requires columns { Each inverse.now.columns (λ column. length column ≡ problem.now.dimension) }
    requires fit { FitsLine line }
    ensures { let fits = FitsCircuitOf problem.now cell.now inverse.now line in MatchResult result
        (λ made. fits × IsRefined problem.now cell.now inverse.now line made)
        (IsFromFault fits) }
{
    let fine = fine_of(alloc, problem, cell, inverse, line.support, line.position)?;
    Ok(WallLine {
        support: line.support,
        position: line.position,
        alpha: line.alpha,
        beta: line.beta,
        fine,
    })
}

/// Lines of further points with their infinitesimals, by square columns over a number: those of the
/// points' ranks in the numbers that these columns give. It isn't tested that the columns are the
/// inverse of the cell. `Overflow` exactly where a number of some line's point doesn't fit.
pub fn refine_all(
    alloc: Global,
    problem: &Problem,
    cell: &Cell,
    inverse: &ScaledInverse,
    lines: Vec<WallLine>,
) -> Result<Vec<WallLine>, FromFault>
    requires cell { IsOf problem.now cell.now }
    requires points { Each lines.items (IsFurtherLine problem.now cell.now) }
    requires count { length inverse.now.columns ≡ problem.now.dimension }
    requires columns { Each inverse.now.columns (λ column. length column ≡ problem.now.dimension) }
    requires fit { All FitsLine lines.items }
    ensures { let fits = Each lines.items (FitsCircuitOf problem.now cell.now inverse.now) in MatchResult result
        (λ made. fits × AreRefined problem.now cell.now inverse.now lines.items made.items)
        (IsFromFault fits) }
{
    let mut made = Vec::with_capacity(alloc, lines.len())?;
    for line in lines {
        let line = refined(alloc, problem, cell, inverse, line)?;
        made.push(line)?;
    }
    Ok(made)
}

// The lines of all further points with their infinitesimals, which they have in version 2 alone.
pub(crate) fn with_fines(
    alloc: Global,
    problem: &Problem,
    cell: &Cell,
    eliminated: &Eliminated,
    lines: Vec<WallLine>,
) -> Result<Vec<WallLine>, FromFault>
    requires cell { IsOf problem.now cell.now }
    requires answer { IsEliminated problem.now.dimension (edge_rows problem.now cell.now) eliminated.now }
    requires places { AreOfFurtherPoints problem.now cell.now lines.items }
    requires points { Each lines.items (IsFurtherLine problem.now cell.now) }
    requires coarse { Each lines.items (λ line. line.fine ≡ []) }
    requires fit { All FitsLine lines.items }
    ensures { let fits = FitsCircuits problem.now cell.now eliminated.now in MatchResult result
        (λ made. fits × (map coarse made.items ≡ lines.items) × Each made.items (HasFine problem.now cell.now eliminated.now) × All FitsLine made.items)
        (IsFromFault fits) }
{
    let _dim = problem.dim();
    if problem.version() == 1 {
        return Ok(lines);
    }
    if lines.is_empty() {
        return Ok(lines);
    }
    let inverse = eliminated.inverse(alloc)?;
    let made = refine_all(alloc, problem, cell, &inverse, lines)?;
    Ok(made)
}
