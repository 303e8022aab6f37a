// The greatest common divisor of a line's numbers, and their quotients by it.
ghost use Rattle.std.specs.Prelude.{◌≡◌, ◌∷◌, ◌<ℤ◌, pos, map, unsigned_abs};
ghost use Rattle.wide_int.specs.Whole.{FitsWhole};
ghost use Rattle.int_vectors.specs.Contents.{IsContent, DividesEach};
ghost use Rattle.int_vectors.specs.Vectors.{Each, scale};
ghost use Rattle.homotopy_rows.specs.Powers.{all_of};

use int_vectors::IntVec;
use wide_int::gcd;

/// The greatest common divisor of the denominator and all sums.
pub(crate) fn common_divisor(den: i128, sums: &[IntVec]) -> i128
    requires fits { FitsWhole den }
    requires positive { pos 0 <ℤ den }
    ensures greatest { IsContent (den ∷ all_of sums.now) (unsigned_abs result) }
    ensures positive { pos 0 <ℤ result }
{
    let mut g = den;
    for ws in sums {
        if g == 1 {
            return 1;
        }
        g = gcd(ws.content(), g);
    }
    g
}

/// Divides each number by `g`, which divides each of them.
pub(crate) fn divide_each(rows: &mut Vec<IntVec>, g: i128)
    requires positive { pos 0 <ℤ g }
    requires exact { Each rows.old.items (DividesEach (unsigned_abs g)) }
    ensures { rows.old.items ≡ map (scale g) rows.new.items }
{
    for k in 0..rows.len() {
        rows[k].divide(g);
    }
}
