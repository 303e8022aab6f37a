ghost use Rattle.std.specs.Prelude.{◌≡◌, ◌↔◌, ◌<◌, ◌≤◌, ◌-◌, IsTrue, length, Contains};
ghost use Rattle.cayley.specs.declared.found.Sign.{Sign};
ghost use Rattle.cayley.specs.Times.{Time};
ghost use Rattle.cayley.specs.Problems.{Problem};
ghost use Rattle.cayley.specs.Cells.{Cell as Pairs};
ghost use Rattle.cayley.specs.Parents.{IsParent};
ghost use Rattle.flip_rule.specs.Few.{cells_of};
ghost use Rattle.flip_rule.specs.Rules.{IsNewPoint, IsSuccessor};
ghost use Rattle.flip_rule.specs.Walls.{IsWall};
ghost use Rattle.canonical_parent.specs.Least.{IsLeast};

use cayley::{Cell, Sign};
use flip_rule::{Few, Signs, successors};

// Whether the new position stands past this point of the pair, where the sign there is `Plus`.
fn stands_past(sign: Sign, point: u32, position: u32) -> bool
    ensures { IsTrue result ↔ (sign ≡ Sign.Plus → point < position) }
{
    match sign {
        Sign::Plus => point < position,
        _ => true,
    }
}

/// Whether the cell is the least of the predecessors: the new position stands past each point that
/// another predecessor lacks.
///
/// `support` and `position` name the new point, and count from 1. At a wall where this point alone
/// is level the cell is then the parent of each of its [`successors`], and else of no cell that
/// begins there. No predecessor is built, and no memory is taken.
pub fn is_least(cell: &Cell, support: u32, position: u32, signs: &Signs) -> bool
    requires support { (1 ≤ support) × (support ≤ length cell.now) }
    requires new { IsNewPoint cell.now (support - 1) position }
    ensures rule { IsTrue result ↔ IsLeast cell.now (support - 1) position signs.now }
    ensures parent { (p : Problem) (t : Time) → IsWall p cell.now (support - 1) position signs.now t → (tau : Pairs)
        → (IsSuccessor cell.now (support - 1) position signs.now tau × IsTrue result) ↔ IsParent p cell.now tau }
{
    let (first, second) = cell.pairs()[support as usize - 1];
    stands_past(signs.a(), first, position) && stands_past(signs.b(), second, position)
}

fn is_among(cells: &Few, cell: &Cell) -> bool
    ensures { IsTrue result ↔ Contains (cells_of cells.now) cell.now }
{
    match cells {
        Few::One(one) => one.cmp(cell).is_eq(),
        Few::Two(one, other) => one.cmp(cell).is_eq() || other.cmp(cell).is_eq(),
    }
}

/// Whether `child` is one of the successors and `cell` the least of the predecessors.
///
/// `support` and `position` name the new point, and count from 1. At a wall where this point alone
/// is level that is exactly where the cell is the parent of the child, so each cell that begins
/// there is kept once (after the reverse search of Avis and Fukuda 1996). No memory is taken.
pub fn keeps(cell: &Cell, child: &Cell, support: u32, position: u32, signs: &Signs) -> bool
    requires support { (1 ≤ support) × (support ≤ length cell.now) }
    requires new { IsNewPoint cell.now (support - 1) position }
    ensures rule { IsTrue result ↔ (IsSuccessor cell.now (support - 1) position signs.now child.now
        × IsLeast cell.now (support - 1) position signs.now) }
    ensures parent { (p : Problem) (t : Time) → IsWall p cell.now (support - 1) position signs.now t
        → IsTrue result ↔ IsParent p cell.now child.now }
{
    if !is_least(cell, support, position, signs) {
        return false;
    }
    is_among(&successors(cell, support, position, signs), child)
}
