// Lists of exponents.
ghost use Rattle.std.specs.Prelude.{◌≡◌, IfOk, Some, None, ◌+◌, pos, if◌then◌else◌};
ghost use Rattle.std.specs.Ordering.{int_eq};
ghost use Rattle.std.specs.Option.{option_map};
ghost use Rattle.std.specs.List.{list_all};
ghost use Rattle.poly_text.specs.Maps as spec;
ghost use Rattle.poly_text.specs.Bounds.{fits, is_exponent};

use cayley::COORDINATE;
use std::alloc::Global;
use wide_int::{OutOfMemory, sum};

// The sums, place by place; none where one doesn't fit.
pub(crate) fn sum_of_exponents(
    alloc: Global,
    xs: &[i128],
    ys: &[i128],
) -> Result<Option<Vec<i128>>, OutOfMemory>
    ensures { IfOk result (λ made. option_map (λ v. v.items) made
        ≡ (if list_all fits (spec.sum_of_exponents xs.now ys.now) then Some (spec.sum_of_exponents xs.now ys.now) else None)) }
{
    let mut sums = Vec::new(alloc);
    for (i, x) in xs.iter().enumerate() {
        if ys.len() <= i {
            return Ok(Some(sums));
        }
        let Some(z) = sum(*x, ys[i]) else {
            return Ok(None);
        };
        if sums.reserve(1).is_err() {
            return Err(OutOfMemory);
        }
        sums.push_reserved(z);
    }
    Ok(Some(sums))
}

// The exponent at a place, counted from 0: `k` at the variable `i`, counted from 1.
fn exponent_at(j: usize, i: i128, k: i128) -> i128
    ensures { result ≡ (if int_eq i (pos (j + 1)) then k else pos 0) }
{
    if i == j as i128 + 1 { k } else { 0 }
}

// `n` exponents: `k` at the variable `i`, counted from 1, and 0 else.
pub(crate) fn exponents_of(
    alloc: Global,
    n: usize,
    i: i128,
    k: i128,
) -> Result<Vec<i128>, OutOfMemory>
    ensures { IfOk result (λ made. made.items ≡ spec.exponents_of n i k) }
{
    let mut exponents = Vec::new(alloc);
    for j in 0..n {
        if exponents.reserve(1).is_err() {
            return Err(OutOfMemory);
        }
        exponents.push_reserved(exponent_at(j, i, k));
    }
    Ok(exponents)
}

// Whether each exponent is within its limits.
pub(crate) fn are_exponents(exponents: &[i128]) -> bool
    ensures { result ≡ list_all is_exponent exponents.now }
{
    exponents.iter().all(|z| z.unsigned_abs() <= COORDINATE)
}
