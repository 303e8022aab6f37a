ghost use Rattle.std.specs.Prelude.{◌≡◌, ◌<◌, ◌≤◌, ◌++◌, ◌+◌, ℕ, List, MatchResult, IfOk, OnOk, All, length};
ghost use Rattle.int_vectors.specs.Vectors.{Each};
ghost use Rattle.cayley.specs.Cells.{EachPair, IsFurther, IsOf};
ghost use Rattle.cayley.specs.Problems.{point_at, with_rank};
ghost use Rattle.cayley.specs.Stored.{point};
ghost use Rattle.cayley.specs.Valid.{IsValidProblem, support_at};
ghost use Rattle.crossing.specs.Lines.{FitsLine};
ghost use Rattle.reduced_rows.specs.Refusals.{IsFromFault};
ghost use Rattle.cone_walls.specs.Listed as listed;
ghost use Rattle.cone_walls.specs.Listed.{one_line, support_lines, wall_lines};
ghost use Rattle.cone_walls.specs.Numbers.{FitsWall};
ghost use Rattle.cone_walls.specs.Rooms.{IsRoomOf, IsNarrowOf, AreCopies};
ghost use Rattle.cone_walls.specs.Workings.{FitsPoint, FitsSupport, FitsWalls};

use crate::rooms::{Copies, Room, room_of};
use crate::sums::{line, narrow_line_of};
use cayley::{Cell, Point, Problem};
use crossing::WallLine;
use inner_normal::MovingNormal;
use reduced_rows::FromFault;
use std::alloc::Global;

// Appends the line of the point at a position of support i, unless it is of the pair.
fn push_line(
    alloc: Global,
    lines: &mut Vec<WallLine>,
    problem: &Problem,
    normal: &MovingNormal,
    room: &Room,
    i: u32,
    pair: (u32, u32),
    position: u32,
) -> Result<(), FromFault>
    requires least { 1 ≤ i }
    requires greatest { i ≤ problem.now.dimension }
    requires pair { (1 ≤ pair.0) × (pair.0 ≤ length (support_at problem.now i)) }
    requires position { (1 ≤ position) × (position ≤ length (support_at problem.now i)) }
    requires p_long { length normal.now.p ≡ problem.now.dimension }
    requires q_long { length normal.now.q ≡ problem.now.dimension }
    requires room { IsRoomOf problem.now normal.now room.now }
    requires fit { All FitsLine lines.old.items }
    ensures made { let s = support_at problem.now i in MatchResult result
        (λ _. FitsPoint normal.now s pair.0 pair.1 position × (lines.new.items ≡ lines.old.items ++ one_line normal.now i s pair.0 pair.1 position))
        (IsFromFault (FitsPoint normal.now s pair.0 pair.1 position)) }
    ensures fit { All FitsLine lines.new.items }
{
    if position == pair.0 || position == pair.1 {
        return Ok(());
    }
    let a = problem.point(i, pair.0);
    let c = problem.point(i, position);
    let Some(made) = line(alloc, normal, room, i, a, position, c) else {
        return Err(FromFault::Overflow);
    };
    lines.push(made)?;
    Ok(())
}

// As `push_line`, in 64 bits, against the first point of the pair.
#[inline(always)]
fn push_narrow_line(
    alloc: Global,
    lines: &mut Vec<WallLine>,
    problem: &Problem,
    normal: &MovingNormal,
    copies: &Copies,
    i: u32,
    pair: (u32, u32),
    a: &Point,
    position: u32,
) -> Result<(), FromFault>
    requires least { 1 ≤ i }
    requires greatest { i ≤ problem.now.dimension }
    requires pair { (1 ≤ pair.0) × (pair.0 ≤ length (support_at problem.now i)) }
    requires first { point a.now ≡ with_rank 0 (point_at (support_at problem.now i) pair.0) }
    requires position { (1 ≤ position) × (position ≤ length (support_at problem.now i)) }
    requires p_long { length normal.now.p ≡ problem.now.dimension }
    requires q_long { length normal.now.q ≡ problem.now.dimension }
    requires copies { AreCopies copies.now normal.now }
    requires room { IsNarrowOf problem.now normal.now }
    requires fit { All FitsLine lines.old.items }
    ensures made { let s = support_at problem.now i in MatchResult result
        (λ _. FitsPoint normal.now s pair.0 pair.1 position × (lines.new.items ≡ lines.old.items ++ one_line normal.now i s pair.0 pair.1 position))
        (IsFromFault (FitsPoint normal.now s pair.0 pair.1 position)) }
    ensures fit { All FitsLine lines.new.items }
{
    if position == pair.0 || position == pair.1 {
        return Ok(());
    }
    let c = problem.point(i, position);
    let made = narrow_line_of(alloc, normal, copies, i, a, position, c);
    lines.push(made)?;
    Ok(())
}

// As `push_lines`, in 64 bits.
fn push_narrow_lines(
    alloc: Global,
    lines: &mut Vec<WallLine>,
    problem: &Problem,
    normal: &MovingNormal,
    copies: &Copies,
    i: u32,
    pair: (u32, u32),
) -> Result<(), FromFault>
    requires least { 1 ≤ i }
    requires greatest { i ≤ problem.now.dimension }
    requires pair { (1 ≤ pair.0) × (pair.0 ≤ length (support_at problem.now i)) }
    requires p_long { length normal.now.p ≡ problem.now.dimension }
    requires q_long { length normal.now.q ≡ problem.now.dimension }
    requires copies { AreCopies copies.now normal.now }
    requires room { IsNarrowOf problem.now normal.now }
    requires fit { All FitsLine lines.old.items }
    ensures made { let s = support_at problem.now i in MatchResult result
        (λ _. FitsSupport normal.now s pair.0 pair.1 × (lines.new.items ≡ lines.old.items ++ support_lines normal.now i s pair.0 pair.1))
        (IsFromFault (FitsSupport normal.now s pair.0 pair.1)) }
    ensures fit { All FitsLine lines.new.items }
{
    let a = problem.point(i, pair.0);
    for index in 0..problem.count(i) {
        push_narrow_line(alloc, lines, problem, normal, copies, i, pair, a, index + 1)?;
    }
    Ok(())
}

// As `push_lines`, with the room of each line.
fn push_other_lines(
    alloc: Global,
    lines: &mut Vec<WallLine>,
    problem: &Problem,
    normal: &MovingNormal,
    room: &Room,
    i: u32,
    pair: (u32, u32),
) -> Result<(), FromFault>
    requires least { 1 ≤ i }
    requires greatest { i ≤ problem.now.dimension }
    requires pair { (1 ≤ pair.0) × (pair.0 ≤ length (support_at problem.now i)) }
    requires p_long { length normal.now.p ≡ problem.now.dimension }
    requires q_long { length normal.now.q ≡ problem.now.dimension }
    requires room { IsRoomOf problem.now normal.now room.now }
    requires fit { All FitsLine lines.old.items }
    ensures made { let s = support_at problem.now i in MatchResult result
        (λ _. FitsSupport normal.now s pair.0 pair.1 × (lines.new.items ≡ lines.old.items ++ support_lines normal.now i s pair.0 pair.1))
        (IsFromFault (FitsSupport normal.now s pair.0 pair.1)) }
    ensures fit { All FitsLine lines.new.items }
{
    for index in 0..problem.count(i) {
        push_line(alloc, lines, problem, normal, room, i, pair, index + 1)?;
    }
    Ok(())
}

// Appends the lines of the further points of support i.
fn push_lines(
    alloc: Global,
    lines: &mut Vec<WallLine>,
    problem: &Problem,
    normal: &MovingNormal,
    room: &Room,
    i: u32,
    pair: (u32, u32),
) -> Result<(), FromFault>
    requires least { 1 ≤ i }
    requires greatest { i ≤ problem.now.dimension }
    requires pair { (1 ≤ pair.0) × (pair.0 ≤ length (support_at problem.now i)) }
    requires p_long { length normal.now.p ≡ problem.now.dimension }
    requires q_long { length normal.now.q ≡ problem.now.dimension }
    requires room { IsRoomOf problem.now normal.now room.now }
    requires fit { All FitsLine lines.old.items }
    ensures made { let s = support_at problem.now i in MatchResult result
        (λ _. FitsSupport normal.now s pair.0 pair.1 × (lines.new.items ≡ lines.old.items ++ support_lines normal.now i s pair.0 pair.1))
        (IsFromFault (FitsSupport normal.now s pair.0 pair.1)) }
    ensures fit { All FitsLine lines.new.items }
{
    match room {
        Room::Narrow { copies } => push_narrow_lines(
            alloc, lines, problem, normal, copies, i, pair,
        ),
        _ => push_other_lines(alloc, lines, problem, normal, room, i, pair),
    }
}

// How many points the supports have but for the pairs; the count stands still at its type's end.
fn further_points(problem: &Problem) -> usize {
    let mut total = 0usize;
    for i in 0..problem.dim() as u32 {
        total = total.saturating_add(problem.count(i + 1).saturating_sub(2) as usize);
    }
    total
}

// The lines of all further points, in this room.
fn lines_within(
    alloc: Global,
    problem: &Problem,
    cell: &Cell,
    normal: &MovingNormal,
    room: &Room,
) -> Result<Vec<WallLine>, FromFault>
    requires of { IsOf problem.now cell.now }
    requires p_long { length normal.now.p ≡ problem.now.dimension }
    requires q_long { length normal.now.q ≡ problem.now.dimension }
    requires room { IsRoomOf problem.now normal.now room.now }
    ensures made { MatchResult result
        (λ lines. FitsWalls problem.now cell.now normal.now × (lines.items ≡ wall_lines normal.now 1 problem.now.supports cell.now))
        (IsFromFault (FitsWalls problem.now cell.now normal.now)) }
    ensures fit { IfOk result (λ lines. All FitsLine lines.items) }
{
    let _dim = problem.dim();
    let mut lines = Vec::with_capacity(alloc, further_points(problem))?;
    for (i, pair) in cell.pairs().iter().enumerate() {
        push_lines(
            alloc,
            &mut lines,
            problem,
            normal,
            room,
            i as u32 + 1,
            *pair,
        )?;
    }
    Ok(lines)
}

/// The lines of all further points under a normal, in order of support and position, with no
/// infinitesimals. It isn't tested that the normal is the cell's. `Overflow` exactly where a number
/// of a line doesn't fit.
pub fn lines_of(
    alloc: Global,
    problem: &Problem,
    cell: &Cell,
    normal: &MovingNormal,
) -> Result<Vec<WallLine>, FromFault>
    requires of { IsOf problem.now cell.now }
    requires p_long { length normal.now.p ≡ problem.now.dimension }
    requires q_long { length normal.now.q ≡ problem.now.dimension }
    ensures made { MatchResult result
        (λ lines. FitsWalls problem.now cell.now normal.now × (lines.items ≡ wall_lines normal.now 1 problem.now.supports cell.now))
        (IsFromFault (FitsWalls problem.now cell.now normal.now)) }
    ensures fit { IfOk result (λ lines. All FitsLine lines.items) }
{
    let room = room_of(alloc, problem, normal)?;
    lines_within(alloc, problem, cell, normal, &room)
}
