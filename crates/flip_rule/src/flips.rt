ghost use Rattle.std.specs.Prelude.{◌≡◌, ◌≢◌, ◌<◌, ◌≤◌, ◌-◌, length, Contains};
ghost use Rattle.cayley.specs.Times.{Time};
ghost use Rattle.cayley.specs.Problems.{Problem};
ghost use Rattle.cayley.specs.Cells.{Cell as Pairs, IsCell, IsListOf};
ghost use Rattle.cayley.specs.Parents.{Precedes};
ghost use Rattle.cayley.specs.Dependencies.{pair_at};
ghost use Rattle.cayley.specs.Flips.{rising, put_pair, for_first, for_second};
ghost use Rattle.cayley.specs.FlipRules.{in_order};
ghost use Rattle.flip_rule.specs.Few.{cells_of};
ghost use Rattle.flip_rule.specs.Rules.{IsNewPoint, IsSuccessor, IsPredecessor};
ghost use Rattle.flip_rule.specs.Walls.{IsWall};

use crate::few::Few;
use crate::signs::Signs;
use cayley::{Cell, Sign};

// The pair of a support, which counts from 1.
fn pair_of(cell: &Cell, support: u32) -> (u32, u32)
    requires { (1 ≤ support) × (support ≤ length cell.now) }
    ensures same { result ≡ pair_at cell.now (support - 1) }
    ensures rises { (1 ≤ result.0) × (result.0 < result.1) }
    ensures all_rise { IsCell cell.now }
{
    cell.pairs()[support as usize - 1]
}

// Two positions as a pair that rises.
fn sorted(one: u32, other: u32) -> (u32, u32)
    requires { (1 ≤ one) × (1 ≤ other) × (one ≢ other) }
    ensures same { result ≡ rising one other }
    ensures rises { (1 ≤ result.0) × (result.0 < result.1) }
{
    if one < other {
        (one, other)
    } else {
        (other, one)
    }
}

// The cell whose pair in a support has these two positions.
fn with_positions(cell: &Cell, support: u32, one: u32, other: u32) -> Cell
    requires support { (1 ≤ support) × (support ≤ length cell.now) }
    requires positions { (1 ≤ one) × (1 ≤ other) × (one ≢ other) }
    ensures { result ≡ put_pair cell.now (support - 1) (rising one other) }
{
    cell.with_pair(support as usize - 1, sorted(one, other))
}

// The new point in place of the first point of the pair.
fn without_first(cell: &Cell, support: u32, position: u32) -> Cell
    requires support { (1 ≤ support) × (support ≤ length cell.now) }
    requires new { IsNewPoint cell.now (support - 1) position }
    ensures same { result ≡ for_first cell.now (support - 1) position }
    ensures all_rise { IsCell cell.now }
{
    let (_, second) = pair_of(cell, support);
    with_positions(cell, support, second, position)
}

// The new point in place of the second point of the pair.
fn without_second(cell: &Cell, support: u32, position: u32) -> Cell
    requires support { (1 ≤ support) × (support ≤ length cell.now) }
    requires new { IsNewPoint cell.now (support - 1) position }
    ensures same { result ≡ for_second cell.now (support - 1) position }
    ensures all_rise { IsCell cell.now }
{
    let (first, _) = pair_of(cell, support);
    with_positions(cell, support, first, position)
}

// The cell, and the cell that has the new point in place of the point `gone`, in cell order.
fn with_flip(cell: &Cell, flip: Cell, gone: u32, position: u32) -> Few
    ensures { cells_of result ≡ in_order gone position cell.now flip }
{
    if gone < position {
        Few::Two(cell.copy(), flip)
    } else {
        Few::Two(flip, cell.copy())
    }
}

/// The cells that take the new point in place of a point of the pair whose sign is `Minus`.
///
/// `support` and `position` name the new point, and count from 1. At a wall where this point alone
/// is level they are the cells that begin there and that the cell precedes (flips, in outline after
/// Jensen 2016). No memory is taken.
pub fn successors(cell: &Cell, support: u32, position: u32, signs: &Signs) -> Few
    requires support { (1 ≤ support) × (support ≤ length cell.now) }
    requires new { IsNewPoint cell.now (support - 1) position }
    ensures rule { IsListOf (IsSuccessor cell.now (support - 1) position signs.now) (cells_of result) }
    ensures flips { (p : Problem) (t : Time) → IsWall p cell.now (support - 1) position signs.now t
        → IsListOf (λ tau. Precedes p cell.now tau t) (cells_of result) }
{
    match signs.a() {
        Sign::Minus => match signs.b() {
            Sign::Minus => {
                let least = without_second(cell, support, position);
                let other = without_first(cell, support, position);
                Few::Two(least, other)
            }
            _ => Few::One(without_first(cell, support, position)),
        },
        _ => Few::One(without_second(cell, support, position)),
    }
}

/// The cell itself, and the cells that take the new point in place of a point of the pair whose
/// sign is `Plus`.
///
/// `support` and `position` name the new point, and count from 1. At a wall where this point alone
/// is level they are the cells that precede the successors. No memory is taken.
pub fn predecessors(cell: &Cell, support: u32, position: u32, signs: &Signs) -> Few
    requires support { (1 ≤ support) × (support ≤ length cell.now) }
    requires new { IsNewPoint cell.now (support - 1) position }
    ensures rule { IsListOf (IsPredecessor cell.now (support - 1) position signs.now) (cells_of result) }
    ensures flips { (p : Problem) (t : Time) → IsWall p cell.now (support - 1) position signs.now t
        → IsListOf (λ rho. (tau : Pairs) × Precedes p cell.now tau t × Precedes p rho tau t) (cells_of result) }
    ensures crosses { (p : Problem) (t : Time) → IsWall p cell.now (support - 1) position signs.now t
        → (rho tau : Pairs) → Contains (cells_of result) rho → IsSuccessor cell.now (support - 1) position signs.now tau
        → Precedes p rho tau t }
{
    let (first, second) = pair_of(cell, support);
    match (signs.a(), signs.b()) {
        (Sign::Plus, _) => {
            with_flip(
                cell,
                without_first(cell, support, position),
                first,
                position,
            )
        }
        (_, Sign::Plus) => {
            with_flip(
                cell,
                without_second(cell, support, position),
                second,
                position,
            )
        }
        _ => Few::One(cell.copy()),
    }
}
