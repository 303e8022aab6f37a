ghost use Rattle.std.specs.Prelude.{◌≡◌, ◌≢◌, ◌↔◌, pos, unsigned_abs, IsSome, IfSome};
ghost use Rattle.std.specs.Ordering.{MatchOrdering};
ghost use Rattle.std.specs.Int.{IsGcd};
ghost use Rattle.wide_int.specs.Whole.{FitsWhole};
ghost use Rattle.wide_int.specs.Fractions.{Fraction, IsLowest, IsFraction, IsBelow, OneForm, FractionsAreOrdered};

use crate::divisors::{exact_quotient, gcd};
use crate::euclid::compare;
use std::cmp::Ordering;
use std::marker::Model;

/// A fraction in lowest terms: its denominator is at least 1, and both numbers fit. Two fractions
/// have the same value exactly where they are equal.
#[derive(Clone, Copy, Debug, PartialEq, Eq)]
pub struct Frac {
    num: i128,
    den: i128,
}

impl Model for Frac {
    ghost Value = { Fraction };

    ghost view = { λ f. record { num = f.num; den = f.den } };

    ghost invariant = { λ f. IsLowest (record { num = f.num; den = f.den }) };

    ghost inverse = { λ f. record { num = f.num; den = f.den } };
}

impl Frac {
    /// The fraction of the value `num / den`. `None` exactly where `den` is 0 or one of the two
    /// doesn't fit.
    pub fn lowest(num: i128, den: i128) -> Option<Frac>
        ensures some { IsSome result ↔ ((den ≢ pos 0) × FitsWhole num × FitsWhole den) }
        ensures value { IfSome result (λ f. IsFraction f num den) }
        ensures lowest { IfSome result IsLowest }
    {
        if den == 0 || num == i128::MIN || den == i128::MIN {
            return None;
        }
        Some(divided(num, den))
    }

    /// The numerator, which fits.
    pub fn num(&self) -> i128
        ensures value { result ≡ self.now.num }
        ensures lowest { IsLowest self.now }
    {
        self.num
    }

    /// The denominator, which fits and is at least 1.
    pub fn den(&self) -> i128
        ensures value { result ≡ self.now.den }
        ensures lowest { IsLowest self.now }
    {
        self.den
    }

    /// The order of the values. It is exact for all fractions and never overflows.
    pub fn cmp(&self, other: &Frac) -> Ordering
        ensures { MatchOrdering result (IsBelow self.now other.now) (self.now ≡ other.now) (IsBelow other.now self.now) }
    {
        compare(self.num, self.den, other.num, other.den)
    }
}

// The fraction of two numbers without a common divisor.
fn sign_moved(num: i128, den: i128) -> Frac
    requires num_fits { FitsWhole num }
    requires den_fits { FitsWhole den }
    requires other { den ≢ pos 0 }
    requires apart { IsGcd (unsigned_abs num) (unsigned_abs den) 1 }
    ensures value { IsFraction result num den }
    ensures lowest { IsLowest result }
{
    if den < 0 {
        Frac {
            num: -num,
            den: -den,
        }
    } else {
        Frac { num, den }
    }
}

// The numbers divided by their greatest common divisor.
fn divided(num: i128, den: i128) -> Frac
    requires num_fits { FitsWhole num }
    requires den_fits { FitsWhole den }
    requires other { den ≢ pos 0 }
    ensures value { IsFraction result num den }
    ensures lowest { IsLowest result }
{
    let divisor = gcd(num, den);
    sign_moved(exact_quotient(num, divisor), exact_quotient(den, divisor))
}

/// The law that a value has one fraction in lowest terms.
pub fn one_form()
    ensures { OneForm }
{}

/// The law that [`Frac::cmp`] is a total order.
pub fn ordered()
    ensures { FractionsAreOrdered }
{}
