// The falling lines that are zero first, of those that were seen.
ghost use Rattle.std.specs.Prelude.{◌≡◌, ◌++◌, [], ◌∷◌, List, pos, neg_ℤ, ◌*ℤ◌, ◌<ℤ◌};
ghost use Rattle.std.specs.Ordering.{MatchOrdering};
ghost use Rattle.int_vectors.specs.Bounds.{IsNarrow};
ghost use Rattle.crossing.specs.declared.leaders.Way.TheVariants as way;
ghost use Rattle.crossing.specs.declared.line.WallLine.{WallLine};
ghost use Rattle.crossing.specs.Leading.{IsBefore, IsEven};
ghost use Rattle.cone_walls.specs.Fronts.{line_by, IsFall, AreFalls, IsFront};

use std::cmp::Ordering;

/// The numbers of a wall line that falls: of the point at a position of a support, `alpha + beta t`
/// at time t.
#[derive(Clone, Copy, Debug, PartialEq, Eq)]
pub struct Fall {
    pub support: u32,
    pub position: u32,
    pub alpha: i64,
    pub beta: i64,
}

/// The falling lines of a cell that are zero first.
#[derive(Clone, Copy, Debug, PartialEq, Eq)]
pub enum Front {
    /// No line falls.
    Empty,
    /// One line alone is zero first.
    One(Fall),
    /// These two are, the first of several.
    Two(Fall, Fall),
}

// How much the line falls in one unit of time.
#[inline(always)]
fn steepness(fall: &Fall) -> i64
    requires { IsFall fall.now }
    ensures { result ≡ neg_ℤ fall.now.beta }
{
    -fall.beta
}

// The product in 128 bits.
#[inline(always)]
fn wide_product(x: i64, y: i64) -> i128
    requires x { IsNarrow x }
    requires y { IsNarrow y }
    ensures { result ≡ x *ℤ y }
{
    x as i128 * y as i128
}

#[inline(always)]
fn compared(x: i128, y: i128) -> Ordering
    ensures { MatchOrdering result (x <ℤ y) (x ≡ y) (y <ℤ x) }
{
    if x < y {
        Ordering::Less
    } else if x == y {
        Ordering::Equal
    } else {
        Ordering::Greater
    }
}

// The order of the zeros of two lines.
#[inline(always)]
fn order(first: &Fall, second: &Fall) -> Ordering
    requires first { IsFall first.now }
    requires second { IsFall second.now }
    ensures { MatchOrdering result
        (IsBefore way.Falling (line_by first.now) (line_by second.now))
        (IsEven way.Falling (line_by first.now) (line_by second.now))
        (IsBefore way.Falling (line_by second.now) (line_by first.now)) }
{
    let steep = steepness(first);
    let other = steepness(second);
    let own = wide_product(first.alpha, other);
    let theirs = wide_product(second.alpha, steep);
    compared(own, theirs)
}

// Joins one more line that falls.
#[inline(always)]
pub(crate) fn join(front: &mut Front, fall: Fall)
    requires falls { AreFalls front.old }
    requires fall { IsFall fall }
    ensures falls { AreFalls front.new }
    ensures front { (lines : List WallLine) → IsFront lines front.old → IsFront (lines ++ line_by fall ∷ []) front.new }
{
    match *front {
        Front::Empty => *front = Front::One(fall),
        Front::One(first) => match order(&first, &fall) {
            Ordering::Less => {}
            Ordering::Equal => *front = Front::Two(first, fall),
            Ordering::Greater => *front = Front::One(fall),
        },
        Front::Two(first, _) => match order(&first, &fall) {
            Ordering::Greater => *front = Front::One(fall),
            _ => {}
        },
    }
}
