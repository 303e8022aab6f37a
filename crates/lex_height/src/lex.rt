ghost use Rattle.std.specs.Prelude.{◌≡◌, ◌↔◌, IsSome, IfSome};
ghost use Rattle.std.specs.Ordering.{MatchOrdering};
ghost use Rattle.wide_int.specs.Fractions as fractions;
ghost use Rattle.wide_int.specs.Fractions.{IsFraction};
ghost use Rattle.lex_height.specs.Entries.{entry};
ghost use Rattle.lex_height.specs.Values.{Value as LexValue, IsAccepted, IsLowest, IsBelow, HasValue, IsOfFraction};

use crate::accepted::are_parts;
use crate::lowest::{common_divisor, quotients};
use crate::order::compare_parts;
use crate::part::{LexPart, PARTS};
use crate::parts::Parts;
use std::cmp::Ordering;
use std::marker::Model;
use wide_int::{Frac, exact_quotient};

/// A value: at most [`PARTS`] parts in rising rank, none zero, over a denominator of at least 1, in
/// lowest terms over all. All numbers fit. Two values are the same exactly where they are equal.
#[derive(Clone, Copy, Debug, PartialEq, Eq)]
pub struct Lex {
    parts: Parts,
    den: i128,
}

impl Model for Lex {
    ghost Value = { LexValue };

    ghost view = { λ a. record { parts = a.parts; den = a.den } };

    ghost invariant = { λ a. IsLowest (record { parts = a.parts; den = a.den }) };

    ghost inverse = { λ a. record { parts = a.parts; den = a.den } };
}

impl Lex {
    /// The value of these parts over `den`, brought to lowest terms. `None` exactly where there are
    /// more than [`PARTS`] parts, the ranks don't rise, a number is zero or doesn't fit, or `den` is
    /// below 1 or doesn't fit.
    pub fn new(parts: &[LexPart], den: i128) -> Option<Lex>
        ensures some { IsSome result ↔ IsAccepted parts.now den }
        ensures value { IfSome result (λ lex. HasValue lex parts.now den) }
        ensures lowest { IfSome result IsLowest }
    {
        if den < 1 || parts.len() > PARTS || !are_parts(parts) {
            return None;
        }
        Some(divided(parts, den))
    }

    /// The value that has this fraction at rank 0 and nothing else: no part where it is 0.
    pub fn of(time: &Frac) -> Lex
        ensures value { IsOfFraction result time.now }
        ensures lowest { IsLowest result }
    {
        let mut parts = Parts::new();
        if time.num() != 0 {
            parts.push(LexPart {
                rank: 0,
                num: time.num(),
            });
        }
        Lex {
            parts,
            den: time.den(),
        }
    }

    /// The parts in rising rank, over [`den`](Lex::den).
    pub fn parts(&self) -> &[LexPart]
        ensures value { result.now ≡ self.now.parts }
        ensures lowest { IsLowest self.now }
    {
        self.parts.as_slice()
    }

    /// The denominator, which fits and is at least 1.
    pub fn den(&self) -> i128
        ensures value { result ≡ self.now.den }
        ensures lowest { IsLowest self.now }
    {
        self.den
    }

    /// The same value; takes no memory.
    pub fn copy(&self) -> Lex
        ensures value { result ≡ self.now }
        ensures lowest { IsLowest self.now }
    {
        let _parts = &self.parts;
        *self
    }

    /// The order of the values: by the entry of the least rank at which they differ. It is exact for
    /// all values and never overflows.
    pub fn cmp(&self, other: &Lex) -> Ordering
        ensures { MatchOrdering result (IsBelow self.now other.now) (self.now ≡ other.now) (IsBelow other.now self.now) }
    {
        compare_parts(
            self.parts.as_slice(),
            self.den,
            other.parts.as_slice(),
            other.den,
        )
    }

    /// The entry of rank 0 as a fraction.
    pub fn frac(&self) -> Frac
        ensures value { IsFraction result (entry self.now.parts 0) self.now.den }
        ensures lowest { fractions.IsLowest result }
    {
        match self.parts.as_slice() {
            [part, ..] if part.rank == 0 => Frac::lowest(part.num, self.den).unwrap(),
            _ => Frac::lowest(0, 1).unwrap(),
        }
    }
}

// The parts and the denominator, divided by the divisor of all.
fn divided(parts: &[LexPart], den: i128) -> Lex
    requires { IsAccepted parts.now den }
    ensures value { HasValue result parts.now den }
    ensures lowest { IsLowest result }
{
    let divisor = common_divisor(parts, den);
    Lex {
        parts: quotients(parts, divisor),
        den: exact_quotient(den, divisor),
    }
}
