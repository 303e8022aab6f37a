ghost use Rattle.std.specs.Prelude.{◌≡◌, ◌<◌, ◌*◌, pos, ◌*ℤ◌, ◌<ℤ◌, unsigned_abs, IsTrue, ◌^◌};
ghost use Rattle.std.specs.Ordering.{MatchOrdering};

use std::cmp::Ordering;

// The order of a / b and c / d.
fn compare_quotients(a: u128, b: u128, c: u128, d: u128) -> Ordering
    requires first { 0 < b }
    requires second { 0 < d }
    ensures { MatchOrdering result (a * d < c * b) (a * d ≡ c * b) (c * b < a * d) }
{
    let p = a / b;
    let q = c / d;
    if p < q {
        return Ordering::Less;
    }
    if q < p {
        return Ordering::Greater;
    }
    let r = a % b;
    let s = c % d;
    if r == 0 {
        if s == 0 {
            Ordering::Equal
        } else {
            Ordering::Less
        }
    } else if s == 0 {
        Ordering::Greater
    } else {
        compare_quotients(d, s, b, r)
    }
}

// The order of a / b and c / d, whose denominators are positive.
fn compare_any(a: i128, b: i128, c: i128, d: i128) -> Ordering
    requires first { pos 0 <ℤ b }
    requires second { pos 0 <ℤ d }
    ensures { MatchOrdering result ((a *ℤ d) <ℤ (c *ℤ b)) (a *ℤ d ≡ c *ℤ b) ((c *ℤ b) <ℤ (a *ℤ d)) }
{
    if a < 0 {
        if c < 0 {
            compare_quotients(
                c.unsigned_abs(),
                d.unsigned_abs(),
                a.unsigned_abs(),
                b.unsigned_abs(),
            )
        } else {
            Ordering::Less
        }
    } else if c < 0 {
        Ordering::Greater
    } else {
        compare_quotients(
            a.unsigned_abs(),
            b.unsigned_abs(),
            c.unsigned_abs(),
            d.unsigned_abs(),
        )
    }
}

// A product of two short numbers fits.
fn is_short(number: i128) -> bool
    ensures { IsTrue result → (unsigned_abs number < 2 ^ 63) }
{
    number.unsigned_abs() < 1 << 63
}

/// The order of `a / b` and `c / d`, whose denominators are positive. It is exact and never
/// overflows: it compares the products where all four numbers are short, and elsewhere the
/// quotients, and turns to the remainders where these are equal.
pub fn compare(a: i128, b: i128, c: i128, d: i128) -> Ordering
    requires first { pos 0 <ℤ b }
    requires second { pos 0 <ℤ d }
    ensures { MatchOrdering result ((a *ℤ d) <ℤ (c *ℤ b)) (a *ℤ d ≡ c *ℤ b) ((c *ℤ b) <ℤ (a *ℤ d)) }
{
    if is_short(a) && is_short(b) && is_short(c) && is_short(d) {
        (a * d).cmp(&(c * b))
    } else {
        compare_any(a, b, c, d)
    }
}
