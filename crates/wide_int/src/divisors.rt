ghost use Rattle.std.specs.Prelude.{◌≡◌, ◌*ℤ◌, ◌<ℤ◌, ◌≤ℤ◌, pos, int_div, unsigned_abs, SomeIff};
ghost use Prim.Native.Nat.{◌∣◌};
ghost use Rattle.std.specs.Int.{IsGcd};
ghost use Rattle.wide_int.specs.Whole.{FitsWhole};
ghost use Rattle.wide_int.specs.Divisors.{lcm_of, IsLcm};

use crate::checked::product;

/// The greatest common divisor of two numbers of 64 bits, 0 for 0 and 0.
#[inline(always)]
pub fn short_gcd(a: u64, b: u64) -> u64
    ensures { IsGcd a b result }
{
    let mut x = a;
    let mut y = b;
    while y != 0 {
        let rest = x % y;
        x = y;
        y = rest;
    }
    x
}

// Euclid's remainders.
fn wide_gcd(a: u128, b: u128) -> u128
    ensures { IsGcd a b result }
{
    let mut x = a;
    let mut y = b;
    while y != 0 {
        let rest = x % y;
        x = y;
        y = rest;
    }
    x
}

// The greatest common divisor, in 64 bits where that is enough.
fn natural_gcd(a: u128, b: u128) -> u128
    ensures { IsGcd a b result }
{
    match (u64::try_from(a), u64::try_from(b)) {
        (Ok(x), Ok(y)) => short_gcd(y, x) as u128,
        _ => wide_gcd(a, b),
    }
}

// The quotient of a number by a divisor, in 64 bits.
fn short_quotient(a: i64, divisor: i64) -> i64
    requires positive { pos 0 <ℤ divisor }
    ensures { result ≡ int_div a divisor }
{
    a / divisor
}

// The quotient of two numbers in 128 bits.
fn wide_quotient(a: i128, divisor: i128) -> i128
    requires positive { pos 0 <ℤ divisor }
    ensures { result ≡ int_div a divisor }
{
    a / divisor
}

/// The quotient of a number by a positive one, towards zero.
pub fn quotient(a: i128, divisor: i128) -> i128
    requires positive { pos 0 <ℤ divisor }
    ensures { result ≡ int_div a divisor }
{
    match (i64::try_from(a), i64::try_from(divisor)) {
        (Ok(x), Ok(y)) => short_quotient(x, y) as i128,
        _ => wide_quotient(a, divisor),
    }
}

/// The greatest common divisor, which is 0 for 0 and 0.
pub fn gcd(a: i128, b: i128) -> i128
    requires a_fits { FitsWhole a }
    requires b_fits { FitsWhole b }
    ensures divisor { IsGcd (unsigned_abs a) (unsigned_abs b) (unsigned_abs result) }
    ensures sign { pos 0 ≤ℤ result }
{
    natural_gcd(a.unsigned_abs(), b.unsigned_abs()) as i128
}

/// The quotient of a number by a divisor of it.
pub fn exact_quotient(a: i128, divisor: i128) -> i128
    requires fits { FitsWhole a }
    requires positive { pos 0 <ℤ divisor }
    requires divides { unsigned_abs divisor ∣ unsigned_abs a }
    ensures quotient { divisor *ℤ result ≡ a }
    ensures fits { FitsWhole result }
{
    a / divisor
}

/// The least common multiple of two positive numbers, or `None` exactly where it doesn't fit. It is found as
/// `a / gcd * b`, so that no greater number comes up on the way.
pub fn lcm(a: i128, b: i128) -> Option<i128>
    requires a_fits { FitsWhole a }
    requires b_fits { FitsWhole b }
    requires a_positive { pos 0 <ℤ a }
    requires b_positive { pos 0 <ℤ b }
    ensures value { let multiple = pos (lcm_of (unsigned_abs a) (unsigned_abs b)) in
        SomeIff result (FitsWhole multiple) multiple }
    ensures least { IsLcm (unsigned_abs a) (unsigned_abs b) (lcm_of (unsigned_abs a) (unsigned_abs b)) }
{
    product(exact_quotient(a, gcd(a, b)), b)
}
