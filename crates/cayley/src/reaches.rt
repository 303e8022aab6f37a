ghost use Rattle.std.specs.List.{All};
ghost use Rattle.int_vectors.specs.Bounds.{Within};
ghost use Rattle.cayley.specs.Reaches.{IsStoredReach};

use crate::points::{Point, Support};

// The greatest absolute value of a coordinate of these points.
fn farthest_of(points: &[Point]) -> u128
    ensures { All (λ x. Within result x.coords) points.now }
{
    let mut most = 0u128;
    for x in points {
        let own = x.coords.greatest();
        if own > most {
            most = own;
        }
    }
    most
}

/// The greatest absolute value of a coordinate.
pub(crate) fn farthest(supports: &[Support]) -> u128
    ensures { All (IsStoredReach result) supports.now }
{
    let mut most = 0u128;
    for s in supports {
        let own = farthest_of(&s.points);
        if own > most {
            most = own;
        }
    }
    most
}
