ghost use Rattle.std.specs.Prelude.{◌≡◌, ℕ, pos, ◌*ℤ◌, ◌<ℤ◌, unsigned_abs};
ghost use Prim.Native.Nat.{◌∣◌};
ghost use Rattle.std.specs.Int.{IsGcd};
ghost use Rattle.wide_int.specs.Whole.{FitsWhole};
ghost use Rattle.int_vectors.specs.Contents as contents;
ghost use Rattle.int_vectors.specs.Vectors.{IsZero};
ghost use Rattle.cayley.specs.Cells as cells;
ghost use Rattle.cayley.specs.Cells.{IsOf};
ghost use Rattle.cayley.specs.Mixed.{IsLowestNormal};
ghost use Rattle.cayley.specs.Problems.{Problem, IsProblem, file_points};
ghost use Rattle.inner_normal.specs.LowestForms.{IsLowestForm};
ghost use Rattle.inner_normal.specs.MovingNormals.{IsMovingNormal};

use crate::moving::MovingNormal;
use cayley::Normal;
use int_vectors::IntVec;
use wide_int::gcd;

// The greatest common divisor of the entries and the denominator.
fn common_divisor(v: &IntVec, den: i128) -> i128
    requires positive { pos 0 <ℤ den }
    ensures divisor { IsGcd (contents.content v.now) (unsigned_abs den) (unsigned_abs result) }
    ensures positive { pos 0 <ℤ result }
{
    gcd(v.content(), den)
}

// An exact quotient.
fn quotient(x: i128, g: i128) -> i128
    requires positive { pos 0 <ℤ g }
    requires exact { unsigned_abs g ∣ unsigned_abs x }
    ensures { g *ℤ result ≡ x }
{
    x / g
}

/// The vector `v` over `den` in lowest terms. It takes no memory.
pub fn in_lowest_terms(v: IntVec, den: i128) -> Normal
    requires positive { pos 0 <ℤ den }
    // The same vector over the same denominator, without a common divisor.
    ensures { IsLowestForm v den result.v result.den }
{
    let mut v = v;
    let g = common_divisor(&v, den);
    v.divide(g);
    Normal {
        v,
        den: quotient(den, g),
    }
}

/// A normal that doesn't move, in lowest terms. It takes no memory.
pub fn target_normal(moving: MovingNormal) -> Normal
    requires still { IsZero moving.q }
    requires positive { pos 0 <ℤ moving.den }
    // The same vector over the same denominator, without a common divisor.
    ensures lowest { IsLowestForm moving.p moving.den result.v result.den }
    // Where the file points are those of a problem it is the cell's normal in lowest terms.
    ensures normal { (p : Problem) (cell : cells.Cell) → IsMovingNormal (file_points p) cell moving → IsLowestNormal p cell result.v result.den }
    // So it is of a cell of file points whose normal it is in the whole problem.
    ensures of_file_points { (p : Problem) (cell : cells.Cell) → IsProblem (file_points p) → IsOf (file_points p) cell → IsMovingNormal p cell moving → IsLowestNormal p cell result.v result.den }
{
    in_lowest_terms(moving.p, moving.den)
}
