ghost use Rattle.std.specs.Prelude.{◌≡◌, ◌<◌, ◌≤◌, ◌↔◌, IsTrue, length, map};
ghost use Rattle.cayley.specs.Cells.{EachPair, IsCell};
ghost use Rattle.cayley.specs.Stored.{point};

use crate::points::Support;

/// Whether there are as many pairs as supports, and each pair's second position is at most its
/// support's count.
pub(crate) fn has_positions(supports: &[Support], pairs: &[(u32, u32)]) -> bool
    requires { IsCell pairs.now }
    ensures { IsTrue result ↔ EachPair (map (λ s. map point s.points.items) supports.now) pairs.now (λ s a b. (1 ≤ a) × (a < b) × (b ≤ length s)) }
{
    if supports.len() != pairs.len() {
        return false;
    }
    for (i, pair) in pairs.iter().enumerate() {
        if supports[i].points.len() < pair.1 as usize {
            return false;
        }
    }
    true
}
