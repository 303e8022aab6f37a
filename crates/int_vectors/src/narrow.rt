ghost use Rattle.std.specs.Prelude.{◌≡◌, ◌<◌, ◌^◌, ℤ, unsigned_abs, ◌+ℤ◌, ◌-ℤ◌, ◌*ℤ◌, IfOk, length};
ghost use Rattle.int_vectors.specs.Bounds.{Room, IsNarrow, NarrowStepRoom};
ghost use Rattle.int_vectors.specs.RowSteps.{eliminated};
ghost use Rattle.int_vectors.specs.Vectors.{Each, sub, dot};

use std::alloc::{AllocError, Global};

#[inline(always)]
fn narrowed(x: i128) -> i64
    requires { IsNarrow x }
    ensures { result ≡ x }
{
    x as i64
}

/// The same entries in 64 bits; each is below 2^62 in absolute value.
pub fn narrow_copy(alloc: Global, v: &[i128]) -> Result<Vec<i64>, AllocError>
    requires { Each v.now IsNarrow }
    ensures { IfOk result (λ made. made.items ≡ v.now) }
{
    let mut made = Vec::with_capacity(alloc, v.len())?;
    for x in v {
        made.push(narrowed(*x))?;
    }
    Ok(made)
}

#[inline(always)]
fn narrow_product(p: i64, x: i64) -> i64
    requires { IsNarrow (p *ℤ x) }
    ensures { result ≡ p *ℤ x }
{
    p * x
}

#[inline(always)]
fn narrow_difference(a: i64, b: i64) -> i64
    requires a { IsNarrow a }
    requires b { IsNarrow b }
    ensures { result ≡ a -ℤ b }
{
    a - b
}

// `p * x - f * y`.
#[inline(always)]
fn narrow_place(p: i64, x: i64, f: i64, y: i64) -> i64
    requires left { IsNarrow (p *ℤ x) }
    requires right { IsNarrow (f *ℤ y) }
    ensures { result ≡ p *ℤ x -ℤ f *ℤ y }
{
    narrow_difference(narrow_product(p, x), narrow_product(f, y))
}

// Puts `pivot * x - factor * y` in each place, in 64 bits.
fn take_off_short(entries: &mut [i128], pivot: i64, factor: i64, by: &[i128])
    requires lengths { length entries.old ≡ length by.now }
    requires room { NarrowStepRoom pivot factor entries.old by.now }
    ensures { entries.new ≡ eliminated pivot factor entries.old by.now }
{
    for i in 0..entries.len() {
        entries[i] = narrow_place(pivot, narrowed(entries[i]), factor, narrowed(by[i])) as i128;
    }
}

// Puts `pivot * x - factor * y` in each place, where a bound shows that 64 bits are enough.
pub(crate) fn take_off_narrow(entries: &mut [i128], pivot: i128, factor: i128, by: &[i128])
    requires lengths { length entries.old ≡ length by.now }
    requires pivot { IsNarrow pivot }
    requires factor { IsNarrow factor }
    requires room { NarrowStepRoom pivot factor entries.old by.now }
    ensures { entries.new ≡ eliminated pivot factor entries.old by.now }
{
    take_off_short(entries, narrowed(pivot), narrowed(factor), by);
}

// c less a.
#[inline(always)]
fn between(a: i128, c: i128) -> i64
    requires a_small { IsNarrow a }
    requires c_small { IsNarrow c }
    ensures { result ≡ c -ℤ a }
{
    narrow_difference(narrowed(c), narrowed(a))
}

#[inline(always)]
fn plus_product(t: i64, d: i64, x: i64) -> i64
    requires product { IsNarrow (d *ℤ x) }
    requires sum { IsNarrow (t +ℤ d *ℤ x) }
    ensures { result ≡ t +ℤ d *ℤ x }
{
    t + d * x
}

/// Two starts plus the sums of the products of c less a with p and q, in 64 bits, where a bound shows
/// that these are enough.
pub fn narrow_dots_between(
    start: i64,
    other: i64,
    a: &[i128],
    c: &[i128],
    p: &[i64],
    q: &[i64],
) -> (i64, i64)
    requires a_length { length a.now ≡ length p.now }
    requires c_length { length c.now ≡ length p.now }
    requires q_length { length q.now ≡ length p.now }
    requires a_small { Each a.now IsNarrow }
    requires c_small { Each c.now IsNarrow }
    requires p_room { Room (2 ^ 62) start (sub c.now a.now) p.now }
    requires q_room { Room (2 ^ 62) other (sub c.now a.now) q.now }
    ensures p { result.0 ≡ start +ℤ dot (sub c.now a.now) p.now }
    ensures q { result.1 ≡ other +ℤ dot (sub c.now a.now) q.now }
{
    let mut alpha = start;
    let mut beta = other;
    for i in 0..p.len() {
        let d = between(a[i], c[i]);
        alpha = plus_product(alpha, d, p[i]);
        beta = plus_product(beta, d, q[i]);
    }
    (alpha, beta)
}
