// A polynomial to which terms are added.
ghost use Rattle.std.specs.Prelude.{◌≡◌, List, [], map, flat_map, Bool, Ok, Err, IfOk, MatchBool, true, false, ℤ, neg_ℤ, ◌+ℤ◌, SomeIff, if◌then◌else◌};
ghost use Rattle.std.specs.List.{list_all};
ghost use Rattle.wide_int.specs.Whole.{FitsWhole};
ghost use Rattle.poly_text.specs.Maps.{plus_term, coefficient, times, products, signed, Monomial};
ghost use Rattle.poly_text.specs.Bounds as spec;
ghost use Rattle.poly_text.specs.Bounds.{fits, is_exponent, with_term};
ghost use Rattle.std.specs.BTreeMap.{keys};
ghost use Rattle.poly_text.specs.Collecting.{Does, plain};

use crate::exponents::{are_exponents, sum_of_exponents};
use crate::terms::Terms;
use cayley::POINTS;
use std::alloc::Global;
use std::collections::BTreeMap;
use std::marker::Model;
use wide_int::{OutOfMemory, difference, product, sum};

// The least absolute value that doesn't fit.
const PAST: u128 = 170_141_183_460_469_231_731_687_303_715_884_105_728;

// The coefficients other than 0 by their exponents, in ascending order.
#[derive(Drop)]
pub(crate) struct Collected {
    kept: BTreeMap<Vec<i128>, i128>,
}

impl Model for Collected {
    ghost use Rattle.std.specs.Prelude.{List, map};
    ghost use Rattle.poly_text.specs.Maps.{Monomial};
    ghost use Rattle.poly_text.specs.Collecting.{plain};

    ghost Value = { List Monomial };

    ghost view = { λ f. map plain f.kept.entries };
}

impl Collected {
    // No term.
    pub(crate) fn new(alloc: Global) -> Collected
        ensures { result ≡ [] }
    {
        Collected {
            kept: BTreeMap::new(alloc),
        }
    }

    // The coefficient at these exponents.
    fn held(&self, exponents: &Vec<i128>) -> i128
        ensures { result ≡ coefficient exponents.now.items self.now }
    {
        match self.kept.get(exponents) {
            Some(held) => *held,
            None => 0,
        }
    }

    // Adds a term. Tells whether the coefficient that this makes fits.
    fn add(&mut self, exponents: Vec<i128>, number: i128) -> Result<bool, OutOfMemory>
        ensures { IfOk result (λ done. MatchBool done
            ((fits (coefficient exponents.items self.old +ℤ number) ≡ true) × (self.new ≡ plus_term self.old (exponents.items, number)))
            (fits (coefficient exponents.items self.old +ℤ number) ≡ false)) }
    {
        let Some(total) = sum(self.held(&exponents), number) else {
            return Ok(false);
        };
        if total == 0 {
            self.kept.remove(&exponents);
            return Ok(true);
        }
        if self.kept.insert(exponents, total).is_err() {
            return Err(OutOfMemory);
        }
        Ok(true)
    }

    // Adds the product of two terms. Tells whether each number that this makes fits.
    fn add_product(
        &mut self,
        alloc: Global,
        left: &(Vec<i128>, i128),
        right: &(Vec<i128>, i128),
    ) -> Result<bool, OutOfMemory>
        ensures { IfOk result (λ done. Does done (with_term self.old (times (plain left.now) (plain right.now))) self.new) }
    {
        let Some(exponents) = sum_of_exponents(alloc, left.0.as_slice(), right.0.as_slice())? else {
            return Ok(false);
        };
        let Some(number) = product(left.1, right.1) else {
            return Ok(false);
        };
        let done = self.add(exponents, number)?;
        Ok(done)
    }

    // Adds the products of a term with each of a polynomial.
    fn add_row(
        &mut self,
        alloc: Global,
        left: &(Vec<i128>, i128),
        right: &Terms,
    ) -> Result<bool, OutOfMemory>
        ensures { IfOk result (λ done. Does done (spec.collected self.old (map (times (plain left.now)) right.now)) self.new) }
    {
        for t in right.entries() {
            if !self.add_product(alloc, left, t)? {
                return Ok(false);
            }
        }
        Ok(true)
    }

    // Adds the products of two polynomials.
    pub(crate) fn add_products(
        &mut self,
        alloc: Global,
        left: &Terms,
        right: &Terms,
    ) -> Result<bool, OutOfMemory>
        ensures { IfOk result (λ done. Does done (spec.collected self.old (products left.now right.now)) self.new) }
    {
        for s in left.entries() {
            if !self.add_row(alloc, s, right)? {
                return Ok(false);
            }
        }
        Ok(true)
    }

    // Adds a term of a polynomial, or takes it away.
    fn add_signed(
        &mut self,
        alloc: Global,
        minus: bool,
        term: &(Vec<i128>, i128),
    ) -> Result<bool, OutOfMemory>
        ensures { IfOk result (λ done. Does done (with_term self.old (signed minus (plain term.now))) self.new) }
    {
        if !are_fitting(term.0.as_slice()) {
            return Ok(false);
        }
        let Some(number) = signed_number(minus, term.1) else {
            return Ok(false);
        };
        let Ok(exponents) = Vec::from_slice(alloc, term.0.as_slice()) else {
            return Err(OutOfMemory);
        };
        let done = self.add(exponents, number)?;
        Ok(done)
    }

    // Adds the terms of a polynomial, or takes them away.
    pub(crate) fn add_terms(
        &mut self,
        alloc: Global,
        minus: bool,
        terms: &Terms,
    ) -> Result<bool, OutOfMemory>
        ensures { IfOk result (λ done. Does done (spec.collected self.old (map (signed minus) terms.now)) self.new) }
    {
        for t in terms.entries() {
            if !self.add_signed(alloc, minus, t)? {
                return Ok(false);
            }
        }
        Ok(true)
    }

    // Whether the terms and the exponents are within their limits.
    pub(crate) fn is_small(&self) -> bool
        ensures { result ≡ spec.is_small self.now }
    {
        self.kept.len() <= POINTS && have_exponents(&self.kept)
    }

    // The terms in ascending order of their exponents.
    pub(crate) fn into_terms(self, alloc: Global) -> Result<Terms, OutOfMemory>
        ensures { IfOk result (λ terms. terms ≡ self) }
    {
        let Ok(entries) = self.kept.into_iter().collect(alloc) else {
            return Err(OutOfMemory);
        };
        Ok(Terms::new(entries))
    }
}

// Whether each exponent is within its limits.
fn have_exponents(kept: &BTreeMap<Vec<i128>, i128>) -> bool
    ensures { result ≡ list_all (λ k. list_all is_exponent k.items) (keys kept.now) }
{
    kept.keys().all(|k| are_exponents(k.as_slice()))
}

// The number or its negative, where that fits.
fn signed_number(minus: bool, number: i128) -> Option<i128>
    ensures { SomeIff result (FitsWhole (if minus then neg_ℤ number else number)) (if minus then neg_ℤ number else number) }
{
    if minus {
        return difference(0, number);
    }
    sum(0, number)
}

// Whether each number fits.
fn are_fitting(numbers: &[i128]) -> bool
    ensures { result ≡ list_all fits numbers.now }
{
    numbers.iter().all(|z| z.unsigned_abs() < PAST)
}
