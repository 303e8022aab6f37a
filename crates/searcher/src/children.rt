ghost use Rattle.std.specs.Prelude.{◌≡◌, ◌≤◌, ◌-◌, IfOk, MatchOption, length};
ghost use Rattle.lex_height.specs.Entries.{entries};
ghost use Rattle.cayley.specs.Times.{Time};
ghost use Rattle.cayley.specs.Problems as problems;
ghost use Rattle.cayley.specs.Cells.{IsOf, IsListOf};
ghost use Rattle.cayley.specs.Normals.{Normal, IsNormal};
ghost use Rattle.cayley.specs.Lives.{EndsAt};
ghost use Rattle.cayley.specs.Parents.{Precedes, IsParent};
ghost use Rattle.cayley.specs.Dependencies.{IsFurtherAt};
ghost use Rattle.cayley.specs.Flips.{IsOnlyLevel};
ghost use Rattle.cayley.specs.Shares.{IsChildren};
ghost use Rattle.flip_rule.specs.Few.{cells_of};
ghost use Rattle.flip_rule.specs.Rules.{IsNewPoint};
ghost use Rattle.inner_normal.specs.Coefficients.{difference, FitsCoefficients};
ghost use Rattle.inner_normal.specs.Inverses.{IsInverseOf};
ghost use Rattle.searcher.specs.Branches.{branches_of, children_of};
ghost use Rattle.carried_inverse.specs.Answers.{HasPairSigns};
ghost use Rattle.searcher.specs.Kept.{EndsAtWall, IsKept};

use crate::branches::Branch;
use crate::expansions::Children;
use canonical_parent::keeps;
use cayley::{Begin, Cell, Problem};
use circuit::circuit_with;
use flip_rule::{Few, Signs, successors};
use inner_normal::ScaledInverse;
use lex_height::Lex;
use std::alloc::Global;
use wide_int::OutOfMemory;

// The branch of a child that begins at this time, where the cell is its parent.
fn kept(
    cell: &Cell,
    child: Cell,
    support: u32,
    position: u32,
    signs: &Signs,
    time: Lex,
) -> Option<Branch>
    requires support { (1 ≤ support) × (support ≤ length cell.now) }
    requires new { IsNewPoint cell.now (support - 1) position }
    ensures { (p : problems.Problem) → EndsAtWall p cell.now (support - 1) position signs.now time
        → MatchOption result (¬ (IsParent p cell.now child)) (IsKept p cell.now time child) }
{
    if keeps(cell, &child, support, position, signs) {
        Some(Branch::new(child, Begin::At(time)))
    } else {
        None
    }
}

// The children among the cells that the cell precedes where it ends.
fn kept_among(
    cell: &Cell,
    cells: Few,
    support: u32,
    position: u32,
    signs: &Signs,
    time: Lex,
) -> Children
    requires support { (1 ≤ support) × (support ≤ length cell.now) }
    requires new { IsNewPoint cell.now (support - 1) position }
    ensures { (p : problems.Problem) (w : EndsAtWall p cell.now (support - 1) position signs.now time)
        → IsListOf (λ tau. Precedes p cell.now tau w.t) (cells_of cells) → IsChildren p cell.now (branches_of (children_of result)) }
{
    match cells {
        Few::One(child) => match kept(cell, child, support, position, signs, time) {
            Some(only) => Children::One(only),
            None => Children::None,
        },
        Few::Two(least, other) => {
            let first = kept(cell, least, support, position, signs, time);
            let second = kept(cell, other, support, position, signs, time);
            match (first, second) {
                (Some(first), Some(second)) => Children::Two(first, second),
                (Some(first), None) => Children::One(first),
                (None, Some(second)) => Children::One(second),
                (None, None) => Children::None,
            }
        }
    }
}

// The signs at the pair of the circuit of the cell and this further point. The numbers fit, so that
// it is refused for want of memory alone.
pub(crate) fn signs_at(
    alloc: Global,
    problem: &Problem,
    cell: &Cell,
    inverse: &ScaledInverse,
    support: u32,
    position: u32,
) -> Result<Signs, OutOfMemory>
    requires cell { IsOf problem.now cell.now }
    requires point { (1 ≤ support) × (support ≤ problem.now.dimension) × IsFurtherAt problem.now cell.now (support - 1) position }
    requires inverse { IsInverseOf problem.now cell.now inverse.now }
    requires fits { FitsCoefficients (support - 1) inverse.now (difference problem.now cell.now (support - 1) position) }
    ensures { IfOk result (HasPairSigns problem.now cell.now (support - 1) position) }
{
    let Ok(circuit) = circuit_with(alloc, problem, cell, inverse, support, position) else {
        return Err(OutOfMemory);
    };
    let signs = circuit.signs();
    match Signs::new(signs[0], signs[1]) {
        Some(signs) => Ok(signs),
        // The three numbers add up to zero, and the last is positive.
        None => unreachable!(),
    }
}

/// The children of a cell at the wall of one further point, where it ends, by the signs of its
/// circuit. It takes no memory.
pub fn kept_by(
    problem: &Problem,
    cell: &Cell,
    signs: Signs,
    support: u32,
    position: u32,
    time: Lex,
) -> Children
    requires cell { IsOf problem.now cell.now }
    requires point { (1 ≤ support) × (support ≤ problem.now.dimension) × IsFurtherAt problem.now cell.now (support - 1) position }
    requires signs { HasPairSigns problem.now cell.now (support - 1) position signs }
    requires wall { (t : Time) × (t.entries ≡ entries time.parts) × (t.over ≡ time.den) × EndsAt problem.now cell.now t
        × ((v : Normal) × IsNormal problem.now cell.now t v × IsOnlyLevel problem.now cell.now t v (support - 1) position) }
    ensures { IsChildren problem.now cell.now (branches_of (children_of result)) }
{
    // A problem is valid by its type, as its readers tell.
    let _dim = problem.dim();
    let cells = successors(cell, support, position, &signs);
    kept_among(cell, cells, support, position, &signs, time)
}

// The children of the cell at the wall of one further point, where it ends.
pub(crate) fn kept_children(
    alloc: Global,
    problem: &Problem,
    cell: &Cell,
    inverse: &ScaledInverse,
    support: u32,
    position: u32,
    time: Lex,
) -> Result<Children, OutOfMemory>
    requires cell { IsOf problem.now cell.now }
    requires point { (1 ≤ support) × (support ≤ problem.now.dimension) × IsFurtherAt problem.now cell.now (support - 1) position }
    requires inverse { IsInverseOf problem.now cell.now inverse.now }
    requires fits { FitsCoefficients (support - 1) inverse.now (difference problem.now cell.now (support - 1) position) }
    requires wall { (t : Time) × (t.entries ≡ entries time.parts) × (t.over ≡ time.den) × EndsAt problem.now cell.now t
        × ((v : Normal) × IsNormal problem.now cell.now t v × IsOnlyLevel problem.now cell.now t v (support - 1) position) }
    ensures { IfOk result (λ kids. IsChildren problem.now cell.now (branches_of (children_of kids))) }
{
    let signs = signs_at(alloc, problem, cell, inverse, support, position)?;
    Ok(kept_by(problem, cell, signs, support, position, time))
}
