ghost use Rattle.std.specs.Prelude.{◌≡◌, [], ◌<◌, ◌^◌, unsigned_abs, ℕ, ℤ, pos, ◌+ℤ◌, ◌-ℤ◌, ◌*ℤ◌, SomeIff, IfSome, length};
ghost use Rattle.wide_int.specs.Whole.{FitsWhole};
ghost use Rattle.int_vectors.specs.Bounds as bounds;
ghost use Rattle.int_vectors.specs.Bounds.{IsNarrow};
ghost use Rattle.int_vectors.specs.Fits.{FitsDot, FitsSum};
ghost use Rattle.int_vectors.specs.Vectors.{Each, sub, dot};
ghost use Rattle.cayley.specs.Stored.{point};
ghost use Rattle.cayley.specs.Valid.{IsHeight};
ghost use Rattle.crossing.specs.Lines.{FitsLine};
ghost use Rattle.cone_walls.specs.Listed as listed;
ghost use Rattle.cone_walls.specs.Numbers.{FitsWall};
ghost use Rattle.cone_walls.specs.Rooms.{IsRoomAt, AreCopies, HasRoom, IsSpeed};

use crate::fines::nothing;
use crate::rooms::{Copies, Room};
use cayley::Point;
use crossing::WallLine;
use inner_normal::MovingNormal;
use int_vectors::{dot_between, dot_between_unchecked, narrow_dots_between};
use std::alloc::Global;
use wide_int::product;

// How much higher c is than a at the time 0.
fn base_difference(a: i64, c: i64) -> i128
    ensures value { result ≡ c -ℤ a }
    ensures fits { FitsWhole result }
{
    c as i128 - a as i128
}

// How much faster c rises than a.
fn speed_difference(a: i64, c: i64) -> i128
    ensures value { result ≡ c -ℤ a }
    ensures fits { FitsWhole result }
{
    c as i128 - a as i128
}

// The denominator times a difference of heights, plus the sum of the products of c less a and v.
fn number(den: i128, height: i128, a: &Point, c: &Point, v: &[i128]) -> Option<i128>
    requires a_length { length a.now.coords ≡ length v.now }
    requires c_length { length c.now.coords ≡ length v.now }
    requires a_small { Each a.now.coords IsNarrow }
    requires c_small { Each c.now.coords IsNarrow }
    ensures value { SomeIff result (FitsSum (den *ℤ height) (sub c.now.coords a.now.coords) v.now) (den *ℤ height +ℤ dot (sub c.now.coords a.now.coords) v.now) }
    ensures fits { IfSome result (λ total. FitsWhole total) }
{
    let start = product(den, height)?;
    dot_between(start, a.coords.as_slice(), c.coords.as_slice(), v)
}

// The line of point `c`, with a check for each of its numbers.
fn checked_line(
    alloc: Global,
    normal: &MovingNormal,
    i: u32,
    a: &Point,
    position: u32,
    c: &Point,
) -> Option<WallLine>
    requires p_lengths { (length a.now.coords ≡ length normal.now.p) × (length c.now.coords ≡ length normal.now.p) }
    requires q_lengths { (length a.now.coords ≡ length normal.now.q) × (length c.now.coords ≡ length normal.now.q) }
    requires a_small { Each a.now.coords IsNarrow }
    requires c_small { Each c.now.coords IsNarrow }
    ensures value { SomeIff result (FitsWall normal.now (point a.now) (point c.now)) (listed.line_of normal.now i (point a.now) position (point c.now)) }
    ensures fits { IfSome result FitsLine }
{
    let alpha = number(
        normal.den,
        base_difference(a.base, c.base),
        a,
        c,
        normal.p.as_slice(),
    )?;
    let beta = number(
        normal.den,
        speed_difference(a.speed, c.speed),
        a,
        c,
        normal.q.as_slice(),
    )?;
    Some(WallLine {
        support: i,
        position,
        alpha,
        beta,
        fine: nothing(alloc),
    })
}

// The product of two numbers, where a bound shows that it fits.
#[inline(always)]
pub(crate) fn scaled(den: i64, h: i64) -> i64
    requires { unsigned_abs (den *ℤ h) < 2 ^ 62 }
    ensures { result ≡ den *ℤ h }
{
    den * h
}

// How much higher c is than a at the time 0.
#[inline(always)]
pub(crate) fn rise(a: i64, c: i64) -> i64
    requires a_high { IsHeight a }
    requires c_high { IsHeight c }
    ensures { result ≡ c -ℤ a }
{
    c - a
}

// How much faster c rises than a.
#[inline(always)]
pub(crate) fn haste(a: i64, c: i64) -> i64
    requires a_fast { IsSpeed a }
    requires c_fast { IsSpeed c }
    ensures { result ≡ c -ℤ a }
{
    c - a
}

// The line of point `c`, by numbers of 64 bits.
#[inline(always)]
fn narrow_line(
    alloc: Global,
    copies: &Copies,
    i: u32,
    a: &Point,
    position: u32,
    c: &Point,
) -> WallLine
    requires p_lengths { (length a.now.coords ≡ length copies.now.p.items) × (length c.now.coords ≡ length copies.now.p.items) }
    requires q_length { length copies.now.q.items ≡ length copies.now.p.items }
    requires a_small { Each a.now.coords IsNarrow }
    requires c_small { Each c.now.coords IsNarrow }
    requires a_high { IsHeight a.now.base }
    requires c_high { IsHeight c.now.base }
    requires a_fast { IsSpeed a.now.speed }
    requires c_fast { IsSpeed c.now.speed }
    requires alpha { bounds.Room (2 ^ 62) (copies.now.den *ℤ (c.now.base -ℤ a.now.base)) (sub c.now.coords a.now.coords) copies.now.p.items }
    requires beta { bounds.Room (2 ^ 62) (copies.now.den *ℤ (c.now.speed -ℤ a.now.speed)) (sub c.now.coords a.now.coords) copies.now.q.items }
    ensures support { result.support ≡ i }
    ensures position { result.position ≡ position }
    ensures fine { result.fine ≡ [] }
    ensures alpha { result.alpha ≡ copies.now.den *ℤ (c.now.base -ℤ a.now.base) +ℤ dot (sub c.now.coords a.now.coords) copies.now.p.items }
    ensures beta { result.beta ≡ copies.now.den *ℤ (c.now.speed -ℤ a.now.speed) +ℤ dot (sub c.now.coords a.now.coords) copies.now.q.items }
{
    let start = scaled(copies.den, rise(a.base, c.base));
    let other = scaled(copies.den, haste(a.speed, c.speed));
    let (alpha, beta) = narrow_dots_between(
        start,
        other,
        a.coords.as_slice(),
        c.coords.as_slice(),
        &copies.p,
        &copies.q,
    );
    WallLine {
        support: i,
        position,
        alpha: alpha as i128,
        beta: beta as i128,
        fine: nothing(alloc),
    }
}

// The same, as the line of the normal.
#[inline(always)]
pub(crate) fn narrow_line_of(
    alloc: Global,
    normal: &MovingNormal,
    copies: &Copies,
    i: u32,
    a: &Point,
    position: u32,
    c: &Point,
) -> WallLine
    requires p_lengths { (length a.now.coords ≡ length normal.now.p) × (length c.now.coords ≡ length normal.now.p) }
    requires q_length { length normal.now.q ≡ length normal.now.p }
    requires a_small { Each a.now.coords IsNarrow }
    requires c_small { Each c.now.coords IsNarrow }
    requires a_high { IsHeight a.now.base }
    requires c_high { IsHeight c.now.base }
    requires a_fast { IsSpeed a.now.speed }
    requires c_fast { IsSpeed c.now.speed }
    requires copies { AreCopies copies.now normal.now }
    requires room { HasRoom (2 ^ 62) normal.now (point a.now) (point c.now) }
    ensures value { FitsWall normal.now (point a.now) (point c.now) × (result ≡ listed.line_of normal.now i (point a.now) position (point c.now)) }
    ensures fits { FitsLine result }
{
    narrow_line(alloc, copies, i, a, position, c)
}

// The product of two numbers, where a bound shows that it fits.
#[inline(always)]
pub(crate) fn wide_scaled(den: i128, h: i128) -> i128
    requires { unsigned_abs (den *ℤ h) < 2 ^ 127 }
    ensures { result ≡ den *ℤ h }
{
    den * h
}

// The line of point `c`, by numbers of 128 bits, where a bound shows that they fit.
fn wide_line(
    alloc: Global,
    normal: &MovingNormal,
    i: u32,
    a: &Point,
    position: u32,
    c: &Point,
) -> WallLine
    requires p_lengths { (length a.now.coords ≡ length normal.now.p) × (length c.now.coords ≡ length normal.now.p) }
    requires q_length { length normal.now.q ≡ length normal.now.p }
    requires a_small { Each a.now.coords IsNarrow }
    requires c_small { Each c.now.coords IsNarrow }
    requires alpha { bounds.Room (2 ^ 127) (normal.now.den *ℤ (c.now.base -ℤ a.now.base)) (sub c.now.coords a.now.coords) normal.now.p }
    requires beta { bounds.Room (2 ^ 127) (normal.now.den *ℤ (c.now.speed -ℤ a.now.speed)) (sub c.now.coords a.now.coords) normal.now.q }
    ensures support { result.support ≡ i }
    ensures position { result.position ≡ position }
    ensures fine { result.fine ≡ [] }
    ensures alpha { result.alpha ≡ normal.now.den *ℤ (c.now.base -ℤ a.now.base) +ℤ dot (sub c.now.coords a.now.coords) normal.now.p }
    ensures beta { result.beta ≡ normal.now.den *ℤ (c.now.speed -ℤ a.now.speed) +ℤ dot (sub c.now.coords a.now.coords) normal.now.q }
{
    let start = wide_scaled(normal.den, base_difference(a.base, c.base));
    let other = wide_scaled(normal.den, speed_difference(a.speed, c.speed));
    let from = a.coords.as_slice();
    let to = c.coords.as_slice();
    let alpha = dot_between_unchecked(start, from, to, normal.p.as_slice());
    let beta = dot_between_unchecked(other, from, to, normal.q.as_slice());
    WallLine {
        support: i,
        position,
        alpha,
        beta,
        fine: nothing(alloc),
    }
}

// The line of point `c` at a position of support i against point `a`, as fast as the room of the
// normal allows.
pub(crate) fn line(
    alloc: Global,
    normal: &MovingNormal,
    room: &Room,
    i: u32,
    a: &Point,
    position: u32,
    c: &Point,
) -> Option<WallLine>
    requires p_lengths { (length a.now.coords ≡ length normal.now.p) × (length c.now.coords ≡ length normal.now.p) }
    requires q_lengths { (length a.now.coords ≡ length normal.now.q) × (length c.now.coords ≡ length normal.now.q) }
    requires a_small { Each a.now.coords IsNarrow }
    requires c_small { Each c.now.coords IsNarrow }
    requires a_high { IsHeight a.now.base }
    requires c_high { IsHeight c.now.base }
    requires a_fast { IsSpeed a.now.speed }
    requires c_fast { IsSpeed c.now.speed }
    requires room { IsRoomAt normal.now (point a.now) (point c.now) room.now }
    ensures value { SomeIff result (FitsWall normal.now (point a.now) (point c.now)) (listed.line_of normal.now i (point a.now) position (point c.now)) }
    ensures fits { IfSome result FitsLine }
{
    match room {
        Room::Narrow { copies } => Some(narrow_line(alloc, copies, i, a, position, c)),
        Room::Wide => Some(wide_line(alloc, normal, i, a, position, c)),
        Room::Unknown => checked_line(alloc, normal, i, a, position, c),
    }
}
