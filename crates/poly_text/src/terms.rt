// Finished polynomials.
ghost use Rattle.std.specs.Prelude.{◌≡◌, List, [], map, IfOk};
ghost use Rattle.poly_text.specs.Collecting.{plain};
ghost use Rattle.poly_text.specs.Maps as maps;
ghost use Rattle.poly_text.specs.Bounds as spec;

use crate::causes::Cause;
use crate::collected::Collected;
use crate::exponents::exponents_of;
use std::alloc::Global;
use std::marker::Model;
use wide_int::OutOfMemory;

// Exponents and coefficients, in ascending order of the exponents.
#[derive(Drop)]
pub(crate) struct Terms {
    entries: Vec<(Vec<i128>, i128)>,
}

impl Model for Terms {
    ghost use Rattle.std.specs.Prelude.{List, map};
    ghost use Rattle.poly_text.specs.Maps.{Monomial};
    ghost use Rattle.poly_text.specs.Collecting.{plain};

    ghost Value = { List Monomial };

    ghost view = { λ f. map plain f.entries.items };
}

impl Terms {
    // The polynomial of these terms.
    pub(crate) fn new(entries: Vec<(Vec<i128>, i128)>) -> Terms
        ensures { result ≡ map plain entries.items }
    {
        Terms { entries }
    }

    // The terms in order.
    pub(crate) fn entries(&self) -> &[(Vec<i128>, i128)]
        ensures { map plain result.now ≡ self.now }
    {
        &self.entries
    }

    // The terms, given away.
    pub(crate) fn into_entries(self) -> Vec<(Vec<i128>, i128)>
        ensures { map plain result.items ≡ self }
    {
        self.entries
    }
}

// One term, or none where the coefficient is 0.
fn single(alloc: Global, exponents: Vec<i128>, number: i128) -> Result<Terms, OutOfMemory>
    ensures { IfOk result (λ f. f ≡ maps.plus_term [] (exponents.items, number)) }
{
    let mut entries = Vec::new(alloc);
    if number == 0 {
        return Ok(Terms::new(entries));
    }
    if entries.push((exponents, number)).is_err() {
        return Err(OutOfMemory);
    }
    Ok(Terms::new(entries))
}

// A number.
pub(crate) fn constant(alloc: Global, n: usize, number: i128) -> Result<Terms, OutOfMemory>
    ensures { IfOk result (λ f. f ≡ maps.constant n number) }
{
    let exponents = exponents_of(alloc, n, 0, 0)?;
    single(alloc, exponents, number)
}

// The power `k` of the variable `i`, counted from 1.
pub(crate) fn power_of_variable(
    alloc: Global,
    n: usize,
    i: i128,
    k: i128,
) -> Result<Terms, OutOfMemory>
    ensures { IfOk result (λ f. f ≡ maps.power_of_variable n i k) }
{
    let exponents = exponents_of(alloc, n, i, k)?;
    single(alloc, exponents, 1)
}

// A sum, or a difference where `minus` is set.
pub(crate) fn added(
    alloc: Global,
    minus: bool,
    sum: Collected,
    terms: &Terms,
) -> Result<Result<Collected, Cause>, OutOfMemory>
    ensures { IfOk result (λ f. f ≡ spec.added minus sum terms.now) }
{
    let mut sum = sum;
    if !sum.add_terms(alloc, minus, terms)? {
        return Ok(Err(Cause::Bound));
    }
    if !sum.is_small() {
        return Ok(Err(Cause::Bound));
    }
    Ok(Ok(sum))
}

// A product.
pub(crate) fn multiplied(
    alloc: Global,
    left: &Terms,
    right: &Terms,
) -> Result<Result<Terms, Cause>, OutOfMemory>
    ensures { IfOk result (λ f. f ≡ spec.multiplied left.now right.now) }
{
    let mut made = Collected::new(alloc);
    if !made.add_products(alloc, left, right)? {
        return Ok(Err(Cause::Bound));
    }
    if !made.is_small() {
        return Ok(Err(Cause::Bound));
    }
    let terms = made.into_terms(alloc)?;
    Ok(Ok(terms))
}

// The product of `k` times the same, from the left.
pub(crate) fn raised(
    alloc: Global,
    n: usize,
    base: &Terms,
    k: usize,
) -> Result<Result<Terms, Cause>, OutOfMemory>
    ensures { IfOk result (λ f. f ≡ spec.raised n base.now k) }
{
    let mut power = constant(alloc, n, 1)?;
    for _turn in 0..k {
        power = match multiplied(alloc, &power, base)? {
            Ok(power) => power,
            Err(cause) => return Ok(Err(cause)),
        };
    }
    Ok(Ok(power))
}
