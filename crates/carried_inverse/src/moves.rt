ghost use Rattle.std.specs.Prelude.{◌≡◌, ◌<◌, ◌≤◌, ℕ, List, IsTrue, length};
ghost use Rattle.cayley.specs.Cells.{IsOf};
ghost use Rattle.cayley.specs.Dependencies.{nth_support};
ghost use Rattle.cayley.specs.Flips.{put_pair};
ghost use Rattle.carried_inverse.specs.Systems.{IsInverseOfCell};

use crate::{Carried, Exchange};
use cayley::{Cell, Problem};

impl Carried {
    // Puts a pair into the cell at a place, which counts from 0, if that flip can be made, and tells
    // whether it stands there.
    fn put_pair(
        &mut self,
        problem: &Problem,
        at: &mut Cell,
        place: usize,
        pair: (u32, u32),
        row: &mut [i64],
    ) -> bool
        requires of { IsOf problem.now at.old }
        requires inverse { IsInverseOfCell problem.now at.old self.old }
        requires place { place < problem.now.dimension }
        requires pair { (1 ≤ pair.0) × (pair.0 < pair.1) × (pair.1 ≤ length (nth_support problem.now.supports place)) }
        requires row { length row.old ≡ problem.now.dimension }
        ensures of { IsOf problem.now at.new }
        ensures inverse { IsInverseOfCell problem.now at.new self.new }
        ensures row { length row.new ≡ length row.old }
        ensures made { IsTrue result → at.new ≡ put_pair at.old place pair }
    {
        // A problem is valid by its type, as its readers tell.
        let _dim = problem.dim();
        if at.pairs()[place] == pair {
            return true;
        }
        match self.flip(problem, place as u32 + 1, pair, row) {
            Exchange::Made => {
                *at = at.with_pair(place, pair);
                true
            }
            _ => false,
        }
    }

    /// Flips the pairs in which the cell `at`, whose inverse this is, differs from another, as far as
    /// each flip can be made, and tells whether that leads to the other; `at` is then the cell whose
    /// inverse this is. `row` is room for as many numbers as the dimension.
    pub fn toward(&mut self, problem: &Problem, at: &mut Cell, cell: &Cell, row: &mut [i64]) -> bool
        requires from { IsOf problem.now at.old }
        requires inverse { IsInverseOfCell problem.now at.old self.old }
        requires to { IsOf problem.now cell.now }
        requires row { length row.old ≡ problem.now.dimension }
        ensures from { IsOf problem.now at.new }
        ensures inverse { IsInverseOfCell problem.now at.new self.new }
        ensures row { length row.new ≡ length row.old }
        ensures same { IsTrue result → at.new ≡ cell.now }
    {
        // A problem is valid by its type, as its readers tell.
        let _dim = problem.dim();
        let mut reached = true;
        for (i, pair) in cell.pairs().iter().enumerate() {
            if !self.put_pair(problem, at, i, *pair, row) {
                reached = false;
            }
        }
        reached
    }
}
