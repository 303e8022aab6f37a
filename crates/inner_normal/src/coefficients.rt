ghost use Rattle.std.specs.Prelude.{◌≡◌, ◌↔◌, ◌<◌, ◌^◌, ◌∷◌, [], ◌-ℤ◌, neg_ℤ, pos, SomeIff, IfSome, IsTrue, MatchResult, length};
ghost use Rattle.wide_int.specs.Whole.{FitsWhole};
ghost use Rattle.int_vectors.specs.Bounds.{SumBelow};
ghost use Rattle.int_vectors.specs.Fits.{AllFit, FitsDot};
ghost use Rattle.int_vectors.specs.Vectors.{Each, at, sub, dot};
ghost use Rattle.reduced_rows.specs.Refusals.{IsFromFault};
ghost use Rattle.cayley.specs.Valid.{IsCornerCoordinate};
ghost use Rattle.inner_normal.specs.Coefficients as numbers;
ghost use Rattle.inner_normal.specs.Coefficients.{products, coefficients_from};

use int_vectors::{IntVec, dot_between, dot_between_unchecked};
use reduced_rows::FromFault;
use std::alloc::Global;
use wide_int::difference;

// The sum of the products of c less a with a column, by no test of a number where a bound is known.
fn product_behind(c: &[i128], a: &[i128], column: &[i128], bounded: bool) -> Option<i128>
    requires first { length c.now ≡ length column.now }
    requires second { length a.now ≡ length column.now }
    requires c_near { Each c.now IsCornerCoordinate }
    requires a_near { Each a.now IsCornerCoordinate }
    requires bound { IsTrue bounded → SumBelow (2 ^ 127) 66000000 (pos 0) column.now }
    ensures value { SomeIff result (FitsDot (pos 0) (sub c.now a.now) column.now) (dot (sub c.now a.now) column.now) }
    ensures fits { IfSome result (λ m. FitsWhole m) }
{
    if bounded {
        Some(dot_between_unchecked(0, a, c, column))
    } else {
        dot_between(0, a, c, column)
    }
}

// The number, less `den` where the two places are one. `None` exactly where that doesn't fit.
fn less_own(i: usize, place: usize, den: i128, m: i128) -> Option<i128>
    requires { FitsWhole m }
    ensures { let value = numbers.less_own i place den m in SomeIff result (FitsWhole value) value }
{
    if i == place {
        difference(m, den)
    } else {
        Some(m)
    }
}

// The coefficients of the pair of support `i`, by its column; both places count from 0.
fn pair_of(
    c: &[i128],
    a: &[i128],
    column: &[i128],
    bounded: bool,
    i: usize,
    place: usize,
    den: i128,
) -> Option<[i128; 2]>
    requires first { length c.now ≡ length column.now }
    requires second { length a.now ≡ length column.now }
    requires c_near { Each c.now IsCornerCoordinate }
    requires a_near { Each a.now IsCornerCoordinate }
    requires bound { IsTrue bounded → SumBelow (2 ^ 127) 66000000 (pos 0) column.now }
    ensures { let m = dot (sub c.now a.now) column.now in let own = numbers.less_own i place den m in SomeIff result
        (FitsDot (pos 0) (sub c.now a.now) column.now × FitsWhole own)
        (own ∷ neg_ℤ m ∷ []) }
{
    let m = product_behind(c, a, column, bounded)?;
    let own = less_own(i, place, den, m)?;
    Some([own, -m])
}

// The coefficients of a cell and the point `c` against `a`, the first point of the pair in the
// support at `place`. `bounded` tells that a bound on the columns shows that every product fits.
pub(crate) fn coefficients(
    alloc: Global,
    columns: &[IntVec],
    bounded: bool,
    den: i128,
    c: &[i128],
    a: &[i128],
    place: usize,
) -> Result<Vec<i128>, FromFault>
    requires place { place < length columns.now }
    requires columns { Each columns.now (λ column. length column ≡ length c.now) }
    requires points { length a.now ≡ length c.now }
    requires c_near { Each c.now IsCornerCoordinate }
    requires a_near { Each a.now IsCornerCoordinate }
    requires fits { FitsWhole den }
    requires bound { IsTrue bounded → Each columns.now (SumBelow (2 ^ 127) 66000000 den) }
    ensures { let v = sub c.now a.now in let ms = products v columns.now in
        let fits = Each columns.now (FitsDot (pos 0) v) × FitsWhole (at ms place -ℤ den) in MatchResult result
        (λ made. fits × (made.items ≡ coefficients_from 0 place den ms) × AllFit made.items)
        (IsFromFault fits) }
{
    let mut made = Vec::with_capacity(alloc, columns.len().saturating_mul(2).saturating_add(1))?;
    for (i, column) in columns.iter().enumerate() {
        let Some(pair) = pair_of(c, a, column.as_slice(), bounded, i, place, den) else {
            return Err(FromFault::Overflow);
        };
        made.extend_from_slice(&pair)?;
    }
    made.push(den)?;
    Ok(made)
}

// Whether the coefficients of a cell and the point `c` against `a` fit; none of them is kept.
pub(crate) fn coefficients_fit(
    columns: &[IntVec],
    bounded: bool,
    den: i128,
    c: &[i128],
    a: &[i128],
    place: usize,
) -> bool
    requires place { place < length columns.now }
    requires columns { Each columns.now (λ column. length column ≡ length c.now) }
    requires points { length a.now ≡ length c.now }
    requires c_near { Each c.now IsCornerCoordinate }
    requires a_near { Each a.now IsCornerCoordinate }
    requires bound { IsTrue bounded → Each columns.now (SumBelow (2 ^ 127) 66000000 den) }
    ensures { let v = sub c.now a.now in
        IsTrue result ↔ (Each columns.now (FitsDot (pos 0) v) × FitsWhole (at (products v columns.now) place -ℤ den)) }
{
    if bounded {
        return true;
    }
    for (i, column) in columns.iter().enumerate() {
        let Some(_pair) = pair_of(c, a, column.as_slice(), false, i, place, den) else {
            return false;
        };
    }
    true
}
