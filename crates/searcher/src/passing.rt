ghost use Rattle.std.specs.Prelude.{◌≡◌, ◌+◌, ◌≤◌, ◌++◌, List, [], ◌∷◌, IfOk, IfErr, ◌↔◌, IsPermutation, IsTrue, MatchResult, vec_len, vec_capacity};
ghost use Rattle.std.specs.Ordering.{MatchOrdering};
ghost use Rattle.int_vectors.specs.Vectors.{Each};
ghost use Rattle.lex_height.specs.Entries.{entries};
ghost use Rattle.lex_height.specs.Values as lex;
ghost use Rattle.reduced_rows.specs.CellRefusals.{IsEliminated};
ghost use Rattle.cayley.specs.Cells as cells;
ghost use Rattle.cayley.specs.Cells.{IsListOf, IsSorted};
ghost use Rattle.cayley.specs.Mixed.{IsAlive};
ghost use Rattle.cayley.specs.Rows.{edge_rows};
ghost use Rattle.cayley.specs.Times.{Time, IsBefore, IsSameTime, time_zero};
ghost use Rattle.crossing.specs.Entries.{IsEntry};
ghost use Rattle.crossing.specs.Exits.{IsExit};
ghost use Rattle.crossing.specs.declared.exit.Exit.TheVariants as exit;
ghost use Rattle.inner_normal.specs.declared.moving.MovingNormal.{MovingNormal};
ghost use Rattle.searcher.specs.CellWalls.{AreLinesOf};
ghost use Rattle.searcher.specs.Searches.{NeverFalls};
ghost use Rattle.searcher.specs.Passes.{time_one, IsOnItsWay, IsReached, IsHaltOnTheWay, IsPassage, AreReachedFrom, left_by, reached_by};

use crate::children::kept_children;
use crate::expansions::{Children, HaltCause};
use crate::ties::tie_of;
use cayley::{Cell, Problem};
use cone_walls::{CellFault, Reduced, Steps, walls_of};
use crossing::{Entry, Exit, WallLine, entry_of, exit_of};
use inner_normal::{ScaledInverse, coefficients_fit_at};
use lex_height::{Lex, LexPart, compare_parts};
use reduced_rows::FromFault;
use std::alloc::Global;
use std::cmp::Ordering;
use std::sync::ledger::Ledger;

// What becomes of a cell until time 1.
#[derive(Drop)]
pub(crate) enum Passage {
    // It is alive at time 1.
    Reached,
    // It ends at time 1.
    Ended,
    // It ends before, and its children go on.
    Followed { children: Children },
}

// How a time stands to time 1.
fn beside_one(time: &Lex) -> Ordering
    ensures order { (t : Time) → t.entries ≡ entries time.now.parts → t.over ≡ time.now.den
        → MatchOrdering result (IsBefore t time_one) (IsSameTime t time_one) (IsBefore time_one t) }
    ensures lowest { lex.IsLowest time.now }
{
    // A time is in lowest terms by its type, as its readers tell.
    let den = time.den();
    let one = LexPart { rank: 0, num: 1 };
    compare_parts(time.parts(), den, &[one], 1)
}

// Whether a time is after time 1.
fn is_after_one(time: &Lex) -> bool
    ensures { (t : Time) → t.entries ≡ entries time.now.parts → t.over ≡ time.now.den → IsTrue result ↔ IsBefore time_one t }
{
    match beside_one(time) {
        Ordering::Less => false,
        Ordering::Equal => false,
        Ordering::Greater => true,
    }
}

// The children of a cell at the wall of one line, where it ends before time 1.
fn followed(
    alloc: Global,
    problem: &Problem,
    cell: &Cell,
    reduced: &Reduced,
    lines: &[WallLine],
    entry: &Entry,
    time: Lex,
    which: usize,
) -> Result<Passage, HaltCause>
    requires way { IsOnItsWay problem.now cell.now }
    requires answer { IsEliminated problem.now.dimension (edge_rows problem.now cell.now) reduced.now }
    requires walls { (normal : MovingNormal) × AreLinesOf problem.now cell.now normal lines.now }
    requires entry { IsEntry lines.now entry.now }
    requires exit { IsExit lines.now (exit.At time which) }
    requires soon { (t : Time) → t.entries ≡ entries time.parts → t.over ≡ time.den → IsBefore t time_one }
    ensures { MatchResult result (IsPassage problem.now cell.now) (IsHaltOnTheWay problem.now (cell.now ∷ [])) }
{
    // A problem is valid by its type, as its readers tell.
    let _dim = problem.dim();
    let wall = &lines[which - 1];
    let inverse = match ScaledInverse::of(alloc, reduced) {
        Ok(inverse) => inverse,
        Err(FromFault::Overflow) => return Err(HaltCause::Overflow { cell: cell.copy() }),
        Err(FromFault::OutOfMemory) => return Err(HaltCause::OutOfMemory),
    };
    if !coefficients_fit_at(problem, cell, &inverse, wall.support, wall.position) {
        return Err(HaltCause::Overflow { cell: cell.copy() });
    }
    match kept_children(
        alloc,
        problem,
        cell,
        &inverse,
        wall.support,
        wall.position,
        time,
    ) {
        Ok(children) => Ok(Passage::Followed { children }),
        Err(_fault) => Err(HaltCause::OutOfMemory),
    }
}

// What becomes of a cell that ends where one further point is level.
fn met(
    alloc: Global,
    problem: &Problem,
    cell: &Cell,
    reduced: &Reduced,
    lines: &[WallLine],
    entry: &Entry,
    time: Lex,
    which: usize,
) -> Result<Passage, HaltCause>
    requires way { IsOnItsWay problem.now cell.now }
    requires answer { IsEliminated problem.now.dimension (edge_rows problem.now cell.now) reduced.now }
    requires walls { (normal : MovingNormal) × AreLinesOf problem.now cell.now normal lines.now }
    requires entry { IsEntry lines.now entry.now }
    requires exit { IsExit lines.now (exit.At time which) }
    ensures { MatchResult result (IsPassage problem.now cell.now) (IsHaltOnTheWay problem.now (cell.now ∷ [])) }
{
    // A problem is valid by its type, as its readers tell.
    let _dim = problem.dim();
    match beside_one(&time) {
        Ordering::Less => followed(alloc, problem, cell, reduced, lines, entry, time, which),
        Ordering::Equal => Ok(Passage::Ended),
        Ordering::Greater => Ok(Passage::Reached),
    }
}

// What becomes of a cell that ends where two further points are level.
fn tied(
    problem: &Problem,
    cell: &Cell,
    lines: &[WallLine],
    entry: &Entry,
    time: Lex,
    first: usize,
    second: usize,
) -> Result<Passage, HaltCause>
    requires way { IsOnItsWay problem.now cell.now }
    requires walls { (normal : MovingNormal) × AreLinesOf problem.now cell.now normal lines.now }
    requires entry { IsEntry lines.now entry.now }
    requires exit { IsExit lines.now (exit.Tied time first second) }
    ensures { MatchResult result (IsPassage problem.now cell.now) (IsHaltOnTheWay problem.now (cell.now ∷ [])) }
{
    // A problem is valid by its type, as its readers tell.
    let _dim = problem.dim();
    if is_after_one(&time) {
        return Ok(Passage::Reached);
    }
    Err(HaltCause::Tie(tie_of(cell, lines, time, first, second)))
}

// What becomes of a cell, by its walls.
fn ended_by(
    alloc: Global,
    problem: &Problem,
    cell: &Cell,
    reduced: &Reduced,
    lines: &[WallLine],
) -> Result<Passage, HaltCause>
    requires way { IsOnItsWay problem.now cell.now }
    requires answer { IsEliminated problem.now.dimension (edge_rows problem.now cell.now) reduced.now }
    requires walls { (normal : MovingNormal) × AreLinesOf problem.now cell.now normal lines.now }
    ensures { MatchResult result (IsPassage problem.now cell.now) (IsHaltOnTheWay problem.now (cell.now ∷ [])) }
{
    // A problem is valid by its type, as its readers tell.
    let _dim = problem.dim();
    let entry = entry_of(lines);
    match exit_of(lines) {
        Exit::Never => Ok(Passage::Reached),
        Exit::Flat { .. } => unreachable!(),
        Exit::At { time, which } => {
            met(alloc, problem, cell, reduced, lines, &entry, time, which)
        }
        Exit::Tied {
            time,
            first,
            second,
        } => tied(problem, cell, lines, &entry, time, first, second),
    }
}

// What becomes of a cell that is alive at some time from 0 on and before 1.
fn passed<L: Ledger>(
    alloc: Global,
    problem: &Problem,
    cell: &Cell,
    steps: &mut Steps<L>,
) -> Result<Passage, HaltCause>
    requires way { IsOnItsWay problem.now cell.now }
    ensures { MatchResult result (IsPassage problem.now cell.now) (IsHaltOnTheWay problem.now (cell.now ∷ [])) }
{
    // A problem is valid by its type, as its readers tell.
    let _dim = problem.dim();
    match walls_of(alloc, problem, cell, steps) {
        Ok(walls) => ended_by(alloc, problem, cell, &walls.reduced, &walls.lines),
        Err(CellFault::Overflow) => Err(HaltCause::Overflow { cell: cell.copy() }),
        // A cell that is alive at some time is independent.
        Err(CellFault::Dependent { .. }) => unreachable!(),
        Err(CellFault::OutOfMemory) => Err(HaltCause::OutOfMemory),
    }
}

// Room for two cells that go on and one that is there.
fn has_room(left: &mut Vec<Cell>, reached: &mut Vec<Cell>) -> bool
    ensures left { left.new.items ≡ left.old.items }
    ensures reached { reached.new.items ≡ reached.old.items }
    ensures kept { (vec_len left.new ≡ vec_len left.old) × (vec_capacity left.old ≤ vec_capacity left.new) }
    ensures room { IsTrue result → (vec_len left.new + 2 ≤ vec_capacity left.new) × (vec_len reached.new + 1 ≤ vec_capacity reached.new) }
{
    left.reserve(2).is_ok() && reached.reserve(1).is_ok()
}

// Puts the cells that go on among those that are left, the first child last, and a cell that is
// there among those.
fn put(left: &mut Vec<Cell>, reached: &mut Vec<Cell>, cell: Cell, passage: Passage)
    requires left { vec_len left.old + 2 ≤ vec_capacity left.old }
    requires reached { vec_len reached.old + 1 ≤ vec_capacity reached.old }
    ensures left { left.new.items ≡ left.old.items ++ left_by passage }
    ensures reached { reached.new.items ≡ reached.old.items ++ reached_by cell passage }
{
    match passage {
        Passage::Reached => {
            let _ = reached.push(cell);
        }
        Passage::Ended => {}
        Passage::Followed { children } => match children {
            Children::None => {}
            Children::One(first) => {
                let _ = left.push(first.cell().copy());
            }
            Children::Two(first, second) => {
                let _ = left.push(second.cell().copy());
                let _ = left.push(first.cell().copy());
            }
        },
    }
}

// Follows a cell and all that come of it until time 1, and puts those that are there at the end.
fn pass<L: Ledger>(
    alloc: Global,
    problem: &Problem,
    cell: Cell,
    reached: &mut Vec<Cell>,
    steps: &mut Steps<L>,
) -> Result<(), HaltCause>
    requires way { IsOnItsWay problem.now cell }
    ensures reached { IfOk result (λ _. (more : List cells.Cell) × (reached.new.items ≡ reached.old.items ++ more) × AreReachedFrom problem.now cell more) }
    ensures halt { IfErr result (IsHaltOnTheWay problem.now (cell ∷ [])) }
{
    // A problem is valid by its type, as its readers tell.
    let _dim = problem.dim();
    let mut left = Vec::new(alloc);
    if let Err(_fault) = left.push(cell) {
        return Err(HaltCause::OutOfMemory);
    }
    while let Some(next) = left.pop() {
        if !has_room(&mut left, reached) {
            return Err(HaltCause::OutOfMemory);
        }
        let passage = match passed(alloc, problem, &next, steps) {
            Ok(passage) => passage,
            Err(cause) => return Err(cause),
        };
        put(&mut left, reached, next, passage);
    }
    Ok(())
}

// Puts the cells into cell order, in place.
fn put_in_order(cells: &mut Vec<Cell>)
    ensures order { NeverFalls cells.new.items }
    ensures same { IsPermutation cells.old.items cells.new.items }
{
    cells.sort_unstable_by(|x, y| x.cmp(y));
}

/// The cells that are alive at time 1 and come, flip by flip, of these cells, in cell order: those
/// that have one of them in their chain of parents. The given cells stand in cell order and are
/// alive at time 0. They are followed one after the other, each with all that comes of it before the
/// next, and children in cell order (the flips of Jensen 2016, each new cell kept under one parent
/// after Avis and Fukuda 1996).
///
/// `Tie` where a cell ends after time 0 and at most at time 1 with two further points level;
/// `Overflow` where a number of a cell's working doesn't fit. Nothing comes back then. Each cell
/// that is followed is a step.
pub fn pass_until<L: Ledger>(
    alloc: Global,
    problem: &Problem,
    cells: &[Cell],
    steps: &mut Steps<L>,
) -> Result<Vec<Cell>, HaltCause>
    requires order { IsSorted cells.now }
    requires alive { Each cells.now (λ cell. IsAlive problem.now cell time_zero) }
    ensures reached { IfOk result (λ reached. IsListOf (IsReached problem.now cells.now) reached.items) }
    ensures halt { IfErr result (IsHaltOnTheWay problem.now cells.now) }
{
    // A problem is valid by its type, as its readers tell.
    let _dim = problem.dim();
    let mut reached = Vec::new(alloc);
    for cell in cells {
        match pass(alloc, problem, cell.copy(), &mut reached, steps) {
            Ok(()) => {}
            Err(cause) => return Err(cause),
        }
    }
    put_in_order(&mut reached);
    Ok(reached)
}
