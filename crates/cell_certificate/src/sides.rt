ghost use Rattle.std.specs.Prelude.{◌≡◌, ◌≢◌, ◌↔◌, ◌+◌, ◌<◌, ◌≤◌, ℕ, pos, ◌<ℤ◌, ◌-ℤ◌, IsTrue, SomeIff, MatchOption, length, map};
ghost use Rattle.int_vectors.specs.Vectors.{Each};
ghost use Rattle.cayley.specs.Files.{plain_problem};
ghost use Rattle.cayley.specs.Stored.{file_point};
ghost use Rattle.cell_certificate.specs.Sides.{seen, IsNear, IsPairOf, FitsSupport, Shows, ShowsAll};
ghost use Rattle.cayley.specs.Resting as resting;
ghost use Rattle.cell_certificate.specs.Sums.{FitsRise, FitsAt, RisesAt, UntiedAt, FitsSums};
ghost use Rattle.cell_certificate.specs.Written.{IsListed};

use cayley::{FilePoint, LiftFile, Normal};
use int_vectors::dot_between;
use listing_text::ListedCell;
use wide_int::product;

// What the sums tell: whether that of each pair's second point is 0, that of each further point is
// positive, and that of no further point is 0.
#[derive(Clone, Copy)]
pub(crate) struct Sides {
    pub level: bool,
    pub above: bool,
    pub untied: bool,
}

impl Sides {
    // What both tell together.
    fn and(self, other: Sides) -> Sides
        ensures level { IsTrue result.level ↔ (IsTrue self.level × IsTrue other.level) }
        ensures above { IsTrue result.above ↔ (IsTrue self.above × IsTrue other.above) }
        ensures untied { IsTrue result.untied ↔ (IsTrue self.untied × IsTrue other.untied) }
    {
        Sides {
            level: self.level && other.level,
            above: self.above && other.above,
            untied: self.untied && other.untied,
        }
    }
}

// How much higher `x` is than `a`.
fn height_above(a: &FilePoint, x: &FilePoint) -> i128
    ensures { result ≡ x.now.height -ℤ a.now.height }
{
    x.height as i128 - a.height as i128
}

// The sum of point `x` against point `a`. `None` exactly where a number of it doesn't fit.
pub(crate) fn rise(normal: &Normal, a: &FilePoint, x: &FilePoint) -> Option<i128>
    requires a_near { IsNear (length normal.now.v) (file_point a.now) }
    requires x_near { IsNear (length normal.now.v) (file_point x.now) }
    ensures { SomeIff result (FitsRise normal.now.den normal.now.v (seen a.now) (seen x.now)) (resting.rise normal.now.den normal.now.v (seen a.now) (seen x.now)) }
{
    let start = product(normal.den, height_above(a, x))?;
    dot_between(
        start,
        a.coords.as_slice(),
        x.coords.as_slice(),
        normal.v.as_slice(),
    )
}

// What nothing speaks against.
fn all_right() -> Sides
    ensures { IsTrue result.level × IsTrue result.above × IsTrue result.untied }
{
    Sides {
        level: true,
        above: true,
        untied: true,
    }
}

fn is_other_than_zero(x: i128) -> bool
    ensures { IsTrue result ↔ (x ≢ pos 0) }
{
    x != 0
}

// What the sum of the point at a place, which counts from 0, tells where it is neither of the pair.
// `None` exactly where it is such a point and a number of its sum doesn't fit.
fn side_of(points: &[FilePoint], pair: (u32, u32), place: usize, normal: &Normal) -> Option<Sides>
    requires near { Each (map file_point points.now) (IsNear (length normal.now.v)) }
    requires pair { IsPairOf (length points.now) pair }
    requires place { place < length points.now }
    ensures { let den = normal.now.den in let v = normal.now.v in let s = map seen points.now in
        MatchOption result (¬ (FitsAt den v s pair.0 pair.1 (place + 1)))
        (λ sides. FitsAt den v s pair.0 pair.1 (place + 1)
        × (IsTrue sides.above ↔ RisesAt den v s pair.0 pair.1 (place + 1))
        × (IsTrue sides.untied ↔ UntiedAt den v s pair.0 pair.1 (place + 1))) }
{
    let first = pair.0 as usize - 1;
    if place == first || place + 1 == pair.1 as usize {
        return Some(all_right());
    }
    let sum = rise(normal, &points[first], &points[place])?;
    Some(Sides {
        level: true,
        above: sum > 0,
        untied: is_other_than_zero(sum),
    })
}

// What the sums of all further points of a support tell. `None` exactly where a number of some sum
// doesn't fit.
fn further_sides(points: &[FilePoint], pair: (u32, u32), normal: &Normal) -> Option<Sides>
    requires near { Each (map file_point points.now) (IsNear (length normal.now.v)) }
    requires pair { IsPairOf (length points.now) pair }
    ensures { let den = normal.now.den in let v = normal.now.v in let s = map seen points.now in
        MatchOption result (¬ ((c : ℕ) → FitsAt den v s pair.0 pair.1 c))
        (λ sides. ((c : ℕ) → FitsAt den v s pair.0 pair.1 c)
        × (IsTrue sides.above ↔ ((c : ℕ) → RisesAt den v s pair.0 pair.1 c))
        × (IsTrue sides.untied ↔ ((c : ℕ) → UntiedAt den v s pair.0 pair.1 c))) }
{
    let mut sides = all_right();
    for place in 0..points.len() {
        let own = side_of(points, pair, place, normal)?;
        sides = own.and(sides);
    }
    Some(sides)
}

// What the sums of one support tell. `None` exactly where a number of one doesn't fit.
pub(crate) fn sides_of(points: &[FilePoint], pair: (u32, u32), normal: &Normal) -> Option<Sides>
    requires near { Each (map file_point points.now) (IsNear (length normal.now.v)) }
    requires pair { IsPairOf (length points.now) pair }
    ensures { let den = normal.now.den in let v = normal.now.v in let s = map seen points.now in
        MatchOption result (¬ (FitsSupport den v s pair.0 pair.1))
        (λ sides. FitsSupport den v s pair.0 pair.1 × Shows den v s pair.0 pair.1 sides) }
{
    let first = &points[pair.0 as usize - 1];
    let own = rise(normal, first, &points[pair.1 as usize - 1])?;
    let further = further_sides(points, pair, normal)?;
    Some(Sides {
        level: own == 0,
        above: further.above,
        untied: further.untied,
    })
}

// What the sums of all supports tell. `None` exactly where a number of one doesn't fit.
pub(crate) fn all_sides(file: &LiftFile, listed: &ListedCell) -> Option<Sides>
    requires { IsListed (plain_problem file.now) listed.now }
    ensures { let p = plain_problem file.now in
        let den = listed.now.normal.den in let v = listed.now.normal.v in let cell = listed.now.cell in
        MatchOption result (¬ (FitsSums p cell v den)) (λ sides. FitsSums p cell v den × ShowsAll p cell v den sides) }
{
    let mut sides = all_right();
    let pairs = listed.cell.pairs();
    for k in 0..file.dim() {
        let own = sides_of(file.support(k as u32 + 1), pairs[k], &listed.normal)?;
        sides = sides.and(own);
    }
    Some(sides)
}
