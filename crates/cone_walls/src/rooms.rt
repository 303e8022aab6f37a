ghost use Rattle.std.specs.Prelude.{◌≡◌, ◌<◌, ◌≤◌, ◌^◌, ℕ, IfOk, IsTrue, unsigned_abs};
ghost use Rattle.int_vectors.specs.Bounds.{Within};
ghost use Rattle.cone_walls.specs.Rooms.{IsWideRoom, IsNarrowRoom, IsRoomOf, IsNarrowOf, AreCopies};

use cayley::Problem;
use inner_normal::MovingNormal;
use int_vectors::narrow_copy;
use std::alloc::{AllocError, Global};

// A normal's numbers in 64 bits.
#[derive(Debug, Drop)]
pub(crate) struct Copies {
    pub den: i64,
    pub p: Vec<i64>,
    pub q: Vec<i64>,
}

// How far the numbers of all wall lines of a normal stay within a type.
#[derive(Debug, Drop)]
pub(crate) enum Room {
    Narrow { copies: Copies },
    Wide,
    Unknown,
}

fn is_narrow(den: i128, most: u128, reach: u128) -> bool
    ensures { IsTrue result → IsNarrowRoom den most reach }
{
    if den.unsigned_abs() >= 1 << 29 || most >= 1 << 61 {
        return false;
    }
    match most.checked_mul(reach) {
        Some(all) => all < 1 << 56,
        None => false,
    }
}

fn is_wide(den: i128, most: u128) -> bool
    ensures { IsTrue result → IsWideRoom den most }
{
    den.unsigned_abs() < 1 << 90 && most < 1 << 90
}

fn greater(a: u128, b: u128) -> u128
    ensures a { a ≤ result }
    ensures b { b ≤ result }
{
    if a < b { b } else { a }
}

// Whether all wall lines of a normal of the problem stay far within 64 bits.
pub(crate) fn is_narrow_of(problem: &Problem, normal: &MovingNormal) -> bool
    ensures { IsTrue result → IsNarrowOf problem.now normal.now }
{
    let most = greater(normal.p.greatest(), normal.q.greatest());
    is_narrow(normal.den, most, problem.reach())
}

fn copies_of(alloc: Global, normal: &MovingNormal) -> Result<Copies, AllocError>
    requires den { unsigned_abs normal.now.den < 2 ^ 62 }
    requires numbers { (w : ℕ) × (w < 2 ^ 61) × Within w normal.now.p × Within w normal.now.q }
    ensures { IfOk result (λ made. AreCopies made normal.now) }
{
    Ok(Copies {
        den: normal.den as i64,
        p: narrow_copy(alloc, normal.p.as_slice())?,
        q: narrow_copy(alloc, normal.q.as_slice())?,
    })
}

// The room of a normal of the problem.
pub(crate) fn room_of(
    alloc: Global,
    problem: &Problem,
    normal: &MovingNormal,
) -> Result<Room, AllocError>
    ensures { IfOk result (λ room. IsRoomOf problem.now normal.now room) }
{
    let most = greater(normal.p.greatest(), normal.q.greatest());
    if is_narrow(normal.den, most, problem.reach()) {
        let copies = copies_of(alloc, normal)?;
        Ok(Room::Narrow { copies })
    } else if is_wide(normal.den, most) {
        Ok(Room::Wide)
    } else {
        Ok(Room::Unknown)
    }
}
