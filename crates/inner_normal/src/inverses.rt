ghost use Rattle.std.specs.Prelude.{◌≡◌, ◌↔◌, ◌+◌, ◌*◌, ◌^◌, ◌<◌, pos, ◌<ℤ◌, IsTrue, MatchResult, length, unsigned_abs};
ghost use Rattle.wide_int.specs.Whole.{FitsWhole};
ghost use Rattle.int_vectors.specs.Bounds.{SumBelow};
ghost use Rattle.int_vectors.specs.Vectors.{Each, sub};
ghost use Rattle.reduced_rows.specs.Refusals.{IsFromFault};
ghost use Rattle.cayley.specs.Valid.{IsCornerCoordinate};
ghost use Rattle.reduced_rows.specs.Denominators.{FitsLcm};
ghost use Rattle.inner_normal.specs.Coefficients as numbers;
ghost use Rattle.inner_normal.specs.Coefficients.{FitsCoefficients};
ghost use Rattle.inner_normal.specs.Inverses.{scaled_columns, FitsColumns, inverse_of, FitsInverse};
ghost use Rattle.inner_normal.specs.Workings.{HaveWidths, denominator};

use crate::coefficients::{coefficients, coefficients_fit};
use int_vectors::{IntVec, row_fits};
use reduced_rows::{FromFault, Reduced};
use std::alloc::Global;
use std::marker::Model;

/// The inverse of the differences of a cell's pairs, times its least denominator: what all circuits
/// of the cell share.
#[derive(Drop)]
pub struct ScaledInverse {
    den: i128,
    columns: Vec<IntVec>,
    // Whether the sizes of the columns show that every circuit fits.
    bounded: bool,
}

impl Model for ScaledInverse {
    ghost use Rattle.std.specs.Prelude.{◌^◌, pos, ◌<ℤ◌, IsTrue};
    ghost use Rattle.int_vectors.specs.Bounds.{SumBelow};
    ghost use Rattle.int_vectors.specs.Vectors.{Each};
    ghost use Rattle.wide_int.specs.Whole.{FitsWhole};
    ghost use Rattle.inner_normal.specs.Inverses.{Inverse};

    ghost Value = { Inverse };

    ghost view = { λ a. record { den = a.den; columns = a.columns.items } };

    ghost invariant = { λ a. FitsWhole a.den × (pos 0 <ℤ a.den) × (IsTrue a.bounded → Each a.columns.items (SumBelow (2 ^ 127) 66000000 a.den)) };
}

// The greatest difference of two coordinates.
const GREATEST_DIFFERENCE: u128 = 66_000_000;

// Whether the absolute values of each column, times the greatest difference, and `den` sum to less
// than 2^127.
fn are_bounded(den: i128, columns: &[IntVec]) -> bool
    ensures { IsTrue result → Each columns.now (SumBelow (2 ^ 127) 66000000 den) }
{
    for column in columns {
        if !row_fits(den, column.as_slice(), GREATEST_DIFFERENCE) {
            return false;
        }
    }
    true
}

// The columns from `2 + n` on, each entry times `den` over its row's pivot.
fn columns_of(alloc: Global, reduced: &Reduced, den: i128) -> Result<Vec<IntVec>, FromFault>
    requires widths { HaveWidths reduced.now }
    requires positive { pos 0 <ℤ den }
    ensures { let n = length reduced.now in let l = unsigned_abs den in MatchResult result
        (λ made. FitsColumns n (n + 2) l reduced.now × (made.items ≡ scaled_columns n (n + 2) l reduced.now))
        (IsFromFault (FitsColumns n (n + 2) l reduced.now)) }
{
    let count = reduced.count();
    let mut made = Vec::with_capacity(alloc, count)?;
    for i in 0..count {
        let column = reduced.scaled_column(alloc, count + 2 + i, den)?;
        made.push(column)?;
    }
    Ok(made)
}

impl ScaledInverse {
    // The scaled inverse that reduced rows give over their common denominator.
    pub(crate) fn over(
        alloc: Global,
        reduced: &Reduced,
        den: i128,
    ) -> Result<ScaledInverse, FromFault>
        requires widths { HaveWidths reduced.now }
        requires den { FitsLcm 0 1 reduced.now × (den ≡ pos (denominator reduced.now)) }
        requires fits { FitsWhole den }
        requires positive { pos 0 <ℤ den }
        ensures { MatchResult result
            (λ inverse. FitsInverse reduced.now × (inverse ≡ inverse_of reduced.now))
            (IsFromFault (FitsInverse reduced.now)) }
    {
        let columns = columns_of(alloc, reduced, den)?;
        let bounded = are_bounded(den, &columns);
        Ok(ScaledInverse {
            den,
            columns,
            bounded,
        })
    }

    /// The scaled inverse of a cell whose edge rows have these reduced rows, each of 2n + 2 numbers.
    /// `Overflow` exactly where the denominator or a number of the columns doesn't fit.
    pub fn of(alloc: Global, reduced: &Reduced) -> Result<ScaledInverse, FromFault>
        requires widths { HaveWidths reduced.now }
        ensures { MatchResult result
            (λ inverse. FitsInverse reduced.now × (inverse ≡ inverse_of reduced.now))
            (IsFromFault (FitsInverse reduced.now)) }
    {
        match reduced.denominator() {
            Some(den) => ScaledInverse::over(alloc, reduced, den),
            None => Err(FromFault::Overflow),
        }
    }

    /// The inverse that these columns are over this number, which is at least 1. It isn't tested of
    /// what they are the inverse.
    pub fn given(den: i128, columns: Vec<IntVec>) -> ScaledInverse
        requires fits { FitsWhole den }
        requires positive { pos 0 <ℤ den }
        ensures { result ≡ record { den = den; columns = columns.items } }
    {
        let bounded = are_bounded(den, &columns);
        ScaledInverse {
            den,
            columns,
            bounded,
        }
    }

    /// The common denominator, at least 1.
    pub fn den(&self) -> i128
        ensures value { result ≡ self.now.den }
        ensures fits { FitsWhole result }
        ensures positive { pos 0 <ℤ result }
    {
        self.den
    }

    /// The numbers of a further point `c` against `a`, the first point of the pair in the support at
    /// `place`, which counts from 0: those of a1, b1, .., an, bn and of the further point, where
    /// (a_i, b_i) is the pair of support i. `Overflow` exactly where one of them doesn't fit.
    pub fn coefficients(
        &self,
        alloc: Global,
        c: &[i128],
        a: &[i128],
        place: usize,
    ) -> Result<IntVec, FromFault>
        requires place { place < length self.now.columns }
        requires columns { Each self.now.columns (λ column. length column ≡ length c.now) }
        requires points { length a.now ≡ length c.now }
        requires c_near { Each c.now IsCornerCoordinate }
        requires a_near { Each a.now IsCornerCoordinate }
        ensures { let v = sub c.now a.now in MatchResult result
            (λ made. FitsCoefficients place self.now v × (made ≡ numbers.coefficients_of place self.now v))
            (IsFromFault (FitsCoefficients place self.now v)) }
    {
        let made = coefficients(alloc, &self.columns, self.bounded, self.den, c, a, place)?;
        Ok(IntVec::from_vec(made))
    }

    // Whether the coefficients fit; none of them is kept.
    pub(crate) fn coefficients_fit(&self, c: &[i128], a: &[i128], place: usize) -> bool
        requires place { place < length self.now.columns }
        requires columns { Each self.now.columns (λ column. length column ≡ length c.now) }
        requires points { length a.now ≡ length c.now }
        requires c_near { Each c.now IsCornerCoordinate }
        requires a_near { Each a.now IsCornerCoordinate }
        ensures { IsTrue result ↔ FitsCoefficients place self.now (sub c.now a.now) }
    {
        coefficients_fit(&self.columns, self.bounded, self.den, c, a, place)
    }
}
