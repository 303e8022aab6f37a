// The two numbers of a wall line one by one, in 64 bits.
ghost use Rattle.std.specs.Prelude.{◌≡◌, ◌+◌, ◌<◌, ◌^◌, drop, ℤ, pos, unsigned_abs, ◌+ℤ◌, ◌-ℤ◌, ◌*ℤ◌, length};
ghost use Rattle.int_vectors.specs.Bounds as bounds;
ghost use Rattle.int_vectors.specs.Bounds.{IsNarrow};
ghost use Rattle.int_vectors.specs.Vectors.{Each, sub, dot};
ghost use Rattle.cayley.specs.Stored.{point};
ghost use Rattle.cayley.specs.Valid.{IsCornerCoordinate};
ghost use Rattle.cone_walls.specs.NarrowLines.{IsNarrowDrift, IsNarrowLine};
ghost use Rattle.cone_walls.specs.Numbers as numbers;

use crate::sums::{rise, scaled};
use cayley::Point;
use inner_normal::MovingNormal;

#[inline(always)]
fn narrowed(x: i128) -> i64
    requires { IsNarrow x }
    ensures { result ≡ x }
{
    x as i64
}

#[inline(always)]
fn short(x: i128) -> i64
    requires { IsCornerCoordinate x }
    ensures { result ≡ x }
{
    x as i64
}

// c less a.
#[inline(always)]
fn between(a: i128, c: i128) -> i64
    requires a_small { IsCornerCoordinate a }
    requires c_small { IsCornerCoordinate c }
    ensures { result ≡ c -ℤ a }
{
    c as i64 - a as i64
}

#[inline(always)]
fn plus_product(t: i64, d: i64, x: i64) -> i64
    requires product { unsigned_abs (d *ℤ x) < 2 ^ 62 }
    requires sum { unsigned_abs (t +ℤ d *ℤ x) < 2 ^ 62 }
    ensures { result ≡ t +ℤ d *ℤ x }
{
    t + d * x
}

// The sum with the product of c less a and v at one more place.
#[inline(always)]
fn with_difference(t: i64, a: &[i128], c: &[i128], v: &[i128], i: usize) -> i64
    requires place { i < length v.now }
    requires a_length { length a.now ≡ length v.now }
    requires c_length { length c.now ≡ length v.now }
    requires a_small { Each a.now IsCornerCoordinate }
    requires c_small { Each c.now IsCornerCoordinate }
    requires v_small { Each v.now IsNarrow }
    requires room { bounds.Room (2 ^ 62) t (drop i (sub c.now a.now)) (drop i v.now) }
    ensures value { result +ℤ dot (drop (i + 1) (sub c.now a.now)) (drop (i + 1) v.now) ≡ t +ℤ dot (drop i (sub c.now a.now)) (drop i v.now) }
    ensures room { bounds.Room (2 ^ 62) result (drop (i + 1) (sub c.now a.now)) (drop (i + 1) v.now) }
{
    let d = between(a[i], c[i]);
    let x = narrowed(v[i]);
    plus_product(t, d, x)
}

// The start plus the sum of the products of c less a and v, of eight numbers each.
#[inline(always)]
fn between_eight(start: i64, a: &[i128], c: &[i128], v: &[i128]) -> i64
    requires eight { length v.now ≡ 8 }
    requires a_length { length a.now ≡ length v.now }
    requires c_length { length c.now ≡ length v.now }
    requires a_small { Each a.now IsCornerCoordinate }
    requires c_small { Each c.now IsCornerCoordinate }
    requires v_small { Each v.now IsNarrow }
    requires room { bounds.Room (2 ^ 62) start (sub c.now a.now) v.now }
    ensures { result ≡ start +ℤ dot (sub c.now a.now) v.now }
{
    let t1 = with_difference(start, a, c, v, 0);
    let t2 = with_difference(t1, a, c, v, 1);
    let t3 = with_difference(t2, a, c, v, 2);
    let t4 = with_difference(t3, a, c, v, 3);
    let t5 = with_difference(t4, a, c, v, 4);
    let t6 = with_difference(t5, a, c, v, 5);
    let t7 = with_difference(t6, a, c, v, 6);
    with_difference(t7, a, c, v, 7)
}

// The same, place by place.
fn between_all(start: i64, a: &[i128], c: &[i128], v: &[i128]) -> i64
    requires a_length { length a.now ≡ length v.now }
    requires c_length { length c.now ≡ length v.now }
    requires a_small { Each a.now IsCornerCoordinate }
    requires c_small { Each c.now IsCornerCoordinate }
    requires v_small { Each v.now IsNarrow }
    requires room { bounds.Room (2 ^ 62) start (sub c.now a.now) v.now }
    ensures { result ≡ start +ℤ dot (sub c.now a.now) v.now }
{
    let mut total = start;
    for i in 0..v.len() {
        total = with_difference(total, a, c, v, i);
    }
    total
}

// The start plus the sum of the products of c less a and v.
#[inline(always)]
fn sum_between(start: i64, a: &[i128], c: &[i128], v: &[i128]) -> i64
    requires a_length { length a.now ≡ length v.now }
    requires c_length { length c.now ≡ length v.now }
    requires a_small { Each a.now IsCornerCoordinate }
    requires c_small { Each c.now IsCornerCoordinate }
    requires v_small { Each v.now IsNarrow }
    requires room { bounds.Room (2 ^ 62) start (sub c.now a.now) v.now }
    ensures { result ≡ start +ℤ dot (sub c.now a.now) v.now }
{
    if v.len() == 8 {
        between_eight(start, a, c, v)
    } else {
        between_all(start, a, c, v)
    }
}

// The sum with the product at one more place.
#[inline(always)]
fn with_place(t: i64, c: &[i128], v: &[i128], i: usize) -> i64
    requires length { length c.now ≡ length v.now }
    requires place { i < length v.now }
    requires c_small { Each c.now IsCornerCoordinate }
    requires v_small { Each v.now IsNarrow }
    requires room { bounds.Room (2 ^ 62) t (drop i c.now) (drop i v.now) }
    ensures value { result +ℤ dot (drop (i + 1) c.now) (drop (i + 1) v.now) ≡ t +ℤ dot (drop i c.now) (drop i v.now) }
    ensures room { bounds.Room (2 ^ 62) result (drop (i + 1) c.now) (drop (i + 1) v.now) }
{
    let d = short(c[i]);
    let x = narrowed(v[i]);
    plus_product(t, d, x)
}

// The start plus the sum of the products of eight coordinates and v.
#[inline(always)]
fn sum_of_eight(start: i64, c: &[i128], v: &[i128]) -> i64
    requires eight { length v.now ≡ 8 }
    requires length { length c.now ≡ length v.now }
    requires c_small { Each c.now IsCornerCoordinate }
    requires v_small { Each v.now IsNarrow }
    requires room { bounds.Room (2 ^ 62) start c.now v.now }
    ensures { result ≡ start +ℤ dot c.now v.now }
{
    let t1 = with_place(start, c, v, 0);
    let t2 = with_place(t1, c, v, 1);
    let t3 = with_place(t2, c, v, 2);
    let t4 = with_place(t3, c, v, 3);
    let t5 = with_place(t4, c, v, 4);
    let t6 = with_place(t5, c, v, 5);
    let t7 = with_place(t6, c, v, 6);
    with_place(t7, c, v, 7)
}

// The same, place by place.
fn sum_of_all(start: i64, c: &[i128], v: &[i128]) -> i64
    requires length { length c.now ≡ length v.now }
    requires c_small { Each c.now IsCornerCoordinate }
    requires v_small { Each v.now IsNarrow }
    requires room { bounds.Room (2 ^ 62) start c.now v.now }
    ensures { result ≡ start +ℤ dot c.now v.now }
{
    let mut total = start;
    for i in 0..v.len() {
        total = with_place(total, c, v, i);
    }
    total
}

// The start plus the sum of the products of the coordinates of a point and v.
#[inline(always)]
fn sum_along(start: i64, c: &[i128], v: &[i128]) -> i64
    requires length { length c.now ≡ length v.now }
    requires c_small { Each c.now IsCornerCoordinate }
    requires v_small { Each v.now IsNarrow }
    requires room { bounds.Room (2 ^ 62) start c.now v.now }
    ensures { result ≡ start +ℤ dot c.now v.now }
{
    if v.len() == 8 {
        sum_of_eight(start, c, v)
    } else {
        sum_of_all(start, c, v)
    }
}

// How much den times the height of a point over the normal grows in one unit of time.
#[inline(always)]
pub(crate) fn drift_of(normal: &MovingNormal, x: &Point) -> i64
    requires { IsNarrowDrift normal.now (point x.now) }
    ensures { result ≡ numbers.drift normal.now (point x.now) }
{
    let den = narrowed(normal.den);
    let first = scaled(den, x.speed);
    sum_along(first, x.coords.as_slice(), normal.q.as_slice())
}

// How much the line of c against a grows in one unit of time, by the drifts of a and c.
#[inline(always)]
pub(crate) fn growth(normal: &MovingNormal, a: &Point, c: &Point, from: i64, to: i64) -> i64
    requires narrow { IsNarrowLine normal.now (point a.now) (point c.now) }
    requires from { from ≡ numbers.drift normal.now (point a.now) }
    requires to { to ≡ numbers.drift normal.now (point c.now) }
    ensures { result ≡ numbers.beta normal.now (point a.now) (point c.now) }
{
    to - from
}

// The value of the line of c against a at the time 0.
#[inline(always)]
pub(crate) fn start(normal: &MovingNormal, a: &Point, c: &Point) -> i64
    requires { IsNarrowLine normal.now (point a.now) (point c.now) }
    ensures { result ≡ numbers.alpha normal.now (point a.now) (point c.now) }
{
    let den = narrowed(normal.den);
    let height = rise(a.base, c.base);
    let first = scaled(den, height);
    sum_between(
        first,
        a.coords.as_slice(),
        c.coords.as_slice(),
        normal.p.as_slice(),
    )
}
