ghost use Rattle.std.specs.Prelude.{◌≡◌, ℤ, ◌+ℤ◌, ◌-ℤ◌, ◌*ℤ◌, SomeIff, IfSome, length};
ghost use Rattle.wide_int.specs.Whole.{FitsWhole};
ghost use Rattle.int_vectors.specs.Bounds.{IsNarrow};
ghost use Rattle.int_vectors.specs.Fits.{FitsDot};
ghost use Rattle.int_vectors.specs.Vectors.{Each, sub, dot};

use wide_int::{product, sum};

// c less a.
#[inline(always)]
fn between(a: i128, c: i128) -> i128
    requires a_small { IsNarrow a }
    requires c_small { IsNarrow c }
    ensures { result ≡ c -ℤ a }
{
    c - a
}

/// `start` plus the sum of the products of c less a with v, which are read where they stand. All three
/// have one length; the entries of `a` and `c` are below 2^62 in absolute value. `None` exactly where a product, or a
/// partial sum in order of places, doesn't fit.
pub fn dot_between(start: i128, a: &[i128], c: &[i128], v: &[i128]) -> Option<i128>
    requires a_length { length a.now ≡ length v.now }
    requires c_length { length c.now ≡ length v.now }
    requires a_small { Each a.now IsNarrow }
    requires c_small { Each c.now IsNarrow }
    requires fits { FitsWhole start }
    ensures value { SomeIff result (FitsDot start (sub c.now a.now) v.now) (start +ℤ dot (sub c.now a.now) v.now) }
    ensures fits { IfSome result (λ total. FitsWhole total) }
{
    let mut total = start;
    for (i, x) in v.iter().enumerate() {
        total = sum(total, product(between(a[i], c[i]), *x)?)?;
    }
    Some(total)
}

// A total and one product more.
#[inline(always)]
fn plus_product(t: i128, d: i128, x: i128) -> i128
    requires product { FitsWhole (d *ℤ x) }
    requires sum { FitsWhole (t +ℤ d *ℤ x) }
    ensures { result ≡ t +ℤ d *ℤ x }
{
    t + d * x
}

/// The same sum, where a bound shows that each of its numbers fits.
pub fn dot_between_unchecked(start: i128, a: &[i128], c: &[i128], v: &[i128]) -> i128
    requires a_length { length a.now ≡ length v.now }
    requires c_length { length c.now ≡ length v.now }
    requires a_small { Each a.now IsNarrow }
    requires c_small { Each c.now IsNarrow }
    requires fits { FitsDot start (sub c.now a.now) v.now }
    ensures { result ≡ start +ℤ dot (sub c.now a.now) v.now }
{
    let mut total = start;
    for (i, x) in v.iter().enumerate() {
        total = plus_product(total, between(a[i], c[i]), *x);
    }
    total
}
