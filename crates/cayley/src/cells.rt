ghost use Rattle.std.specs.Prelude.{◌≡◌, ◌<◌, ◌≤◌, ◌↔◌, ℕ, List, IsNone, IfSome, IsTrue, length};
ghost use Rattle.std.specs.declared.cmp.Ordering.{Ordering};
ghost use Rattle.cayley.specs.Cells.{IsCell, IsLess};
ghost use Rattle.cayley.specs.Valid.{IsValidCell};
ghost use Rattle.cayley.specs.Flips.{put_pair};

use crate::limits::DIMENSIONS;
use smallvec::SmallVec;
use std::alloc::Global;
use std::cmp::Ordering;
use std::marker::Model;

/// A list of 1 to 16 pairs (a, b) of positions with 1 <= a < b, one pair for each support.
///
/// The pairs stand inline, so copying a cell takes no memory.
#[derive(Drop)]
pub struct Cell {
    pairs: SmallVec<(u32, u32), 16>,
}

impl Model for Cell {
    ghost use Rattle.std.specs.Prelude.{◌≡◌, List, ℕ};
    ghost use Rattle.cayley.specs.Valid.{IsValidCell};

    ghost Value = { List (ℕ × ℕ) };

    ghost view = { λ c. c.pairs.items };

    ghost invariant = { λ c. IsValidCell c.pairs.items × (c.pairs.capacity ≡ 16) };
}

// Whether each pair rises.
fn all_rise(pairs: &[(u32, u32)]) -> bool
    ensures { IsTrue result ↔ IsCell pairs.now }
{
    pairs.iter().all(|pair| 1 <= pair.0 && pair.0 < pair.1)
}

fn is_valid(pairs: &[(u32, u32)]) -> bool
    ensures { IsTrue result ↔ IsValidCell pairs.now }
{
    1 <= pairs.len() && pairs.len() <= DIMENSIONS && all_rise(pairs)
}

impl Cell {
    /// The cell of these pairs. `None` exactly where they aren't 1 to 16 pairs (a, b) with
    /// 1 <= a < b.
    ///
    /// The allocator is kept beside the inline pairs; no memory is asked of it.
    pub fn new(alloc: Global, pairs: &[(u32, u32)]) -> Option<Cell>
        ensures none { IsNone result ↔ ¬ (IsValidCell pairs.now) }
        ensures same { IfSome result (λ cell. cell ≡ pairs.now) }
    {
        if !is_valid(pairs) {
            return None;
        }
        match SmallVec::from_slice(alloc, pairs) {
            Ok(pairs) => Some(Cell { pairs }),
            Err(_) => unreachable!(),
        }
    }

    /// The pairs, in order of the supports.
    pub fn pairs(&self) -> &[(u32, u32)]
        ensures same { result.now ≡ self.now }
        ensures valid { IsValidCell self.now }
    {
        self.pairs.as_slice()
    }

    /// An equal cell.
    pub fn copy(&self) -> Cell
        ensures { result ≡ self.now }
    {
        match SmallVec::from_slice(*self.pairs.allocator(), self.pairs.as_slice()) {
            Ok(pairs) => Cell { pairs },
            Err(_) => unreachable!(),
        }
    }

    /// The cell with this pair at a place, which counts from 0.
    pub fn with_pair(&self, place: usize, pair: (u32, u32)) -> Cell
        requires place { place < length self.now }
        requires rises { (1 ≤ pair.0) × (pair.0 < pair.1) }
        ensures { result ≡ put_pair self.now place pair }
    {
        match SmallVec::from_slice(*self.pairs.allocator(), self.pairs.as_slice()) {
            Ok(mut pairs) => {
                pairs.as_mut_slice()[place] = pair;
                Cell { pairs }
            }
            Err(_) => unreachable!(),
        }
    }

    /// Cell order: the lists a1 b1 a2 b2 .. are compared as numbers, the first difference deciding;
    /// where one list begins the other, the shorter is less.
    pub fn cmp(&self, other: &Cell) -> Ordering
        ensures less { result ≡ Ordering.Less ↔ IsLess self.now other.now }
        ensures equal { result ≡ Ordering.Equal ↔ self.now ≡ other.now }
        ensures greater { result ≡ Ordering.Greater ↔ IsLess other.now self.now }
    {
        self.pairs.as_slice().cmp(other.pairs.as_slice())
    }
}
