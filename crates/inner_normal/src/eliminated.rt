ghost use Rattle.std.specs.Prelude.{◌≡◌, ◌↔◌, ◌+◌, ◌*◌, MatchResult, IfOk, IfErr, length};
ghost use Rattle.int_vectors.specs.Vectors.{Each};
ghost use Rattle.cayley.specs.Cells as cells;
ghost use Rattle.cayley.specs.Cells.{IsOf, IsIndependent, IsCellKernel};
ghost use Rattle.cayley.specs.Problems as problems;
ghost use Rattle.cayley.specs.Problems.{IsProblem};
ghost use Rattle.cayley.specs.Rows.{edge_rows};
ghost use Rattle.reduced_rows.specs.CellRefusals.{IsEliminated, IsCellFault, OnDependent, HasAnswer, IsCellDependent, CellOverflowExactly};
ghost use Rattle.reduced_rows.specs.Refusals.{IsFromFault};
ghost use Rattle.reduced_rows.specs.Steps.{FitsElimination};
ghost use Rattle.inner_normal.specs.Inverses.{inverse_of, FitsInverse};
ghost use Rattle.inner_normal.specs.MovingNormals.{IsMovingNormal};
ghost use Rattle.inner_normal.specs.Workings.{HaveWidths, FitsNormal, IsNormalFrom};

use crate::inverses::ScaledInverse;
use crate::moving::MovingNormal;
use crate::normals::normal_over;
use cayley::{Cell, Problem};
use reduced_rows::{CellFault, FromFault, Reduced, reduce};
use std::alloc::Global;
use std::marker::Model;

/// What one elimination of a cell gives, whose differences are independent: its reduced rows, and
/// their common denominator where it fits.
#[derive(Debug, Drop)]
pub struct Eliminated {
    reduced: Reduced,
    den: Option<i128>,
}

impl Model for Eliminated {
    ghost use Rattle.std.specs.Prelude.{List, ℤ};
    ghost use Rattle.inner_normal.specs.Workings.{HaveWidths, IsDenominator};

    ghost Value = { List (List ℤ) };

    ghost view = { λ a. a.reduced };

    ghost invariant = { λ a. HaveWidths a.reduced × IsDenominator a.reduced a.den };
}

// The elimination of the cell's rows.
fn eliminate(alloc: Global, problem: &Problem, cell: &Cell) -> Result<Eliminated, CellFault>
    requires { IsOf problem.now cell.now }
    ensures { let n = problem.now.dimension in let rows = edge_rows problem.now cell.now in MatchResult result
        (IsEliminated n rows)
        (IsCellFault (FitsElimination n rows) n rows) }
{
    let rows = problem.edge_rows(alloc, cell)?;
    let reduced = reduce(alloc, rows, problem.dim())?;
    Ok(Eliminated::from_reduced(reduced))
}

impl Eliminated {
    /// Eliminates a cell that the problem contains. `Overflow` exactly where a number of the
    /// elimination or kernel doesn't fit, else `Dependent` exactly where the differences are
    /// dependent.
    pub fn of(alloc: Global, problem: &Problem, cell: &Cell) -> Result<Eliminated, CellFault>
        requires { IsOf problem.now cell.now }
        // Ok: the rows are the elimination's, and the cell is independent.
        ensures answer { IfOk result (λ e. IsEliminated problem.now.dimension (edge_rows problem.now cell.now) e × IsIndependent problem.now cell.now) }
        ensures overflow { HasAnswer result → CellOverflowExactly (FitsElimination problem.now.dimension (edge_rows problem.now cell.now)) result }
        ensures dependent { HasAnswer result → IsCellDependent result
            ↔ (FitsElimination problem.now.dimension (edge_rows problem.now cell.now) × ¬ (IsIndependent problem.now cell.now)) }
        // Dependent: the kernel isn't zero, and it is orthogonal to each difference of the pairs.
        ensures kernel { IfErr result (OnDependent (IsCellKernel problem.now cell.now)) }
        // The numbers that come out are those of the working.
        ensures working { let n = problem.now.dimension in let rows = edge_rows problem.now cell.now in MatchResult result
            (IsEliminated n rows)
            (IsCellFault (FitsElimination n rows) n rows) }
        // The problem is valid by its type.
        ensures valid { IsProblem problem.now }
    {
        // A problem is valid by its type, as its readers tell.
        let _dim = problem.dim();
        eliminate(alloc, problem, cell)
    }

    /// Of n reduced rows of 2n + 2 numbers, as `reduce` gives them of a cell's rows.
    pub fn from_reduced(reduced: Reduced) -> Eliminated
        requires { HaveWidths reduced }
        ensures { result ≡ reduced }
    {
        let den = reduced.denominator();
        Eliminated { reduced, den }
    }

    /// The reduced rows.
    pub fn reduced(&self) -> &Reduced
        ensures { result.now ≡ self.now }
    {
        &self.reduced
    }

    /// The reduced rows alone.
    pub fn into_reduced(self) -> Reduced
        ensures { result ≡ self }
    {
        self.reduced
    }

    /// The normal at all times. `Overflow` exactly where a number of the denominator or of the normal
    /// doesn't fit.
    pub fn normal(&self, alloc: Global) -> Result<MovingNormal, FromFault>
        // The numbers that come out are those of the working.
        ensures working { MatchResult result
            (λ m. FitsNormal (length self.now) self.now × IsNormalFrom self.now m)
            (IsFromFault (FitsNormal (length self.now) self.now)) }
        // Of every cell with these reduced rows it is the one normal at every time.
        ensures normal { IfOk result (λ m. (p : problems.Problem) (cell : cells.Cell) → IsProblem p → IsOf p cell
            → IsEliminated p.dimension (edge_rows p cell) self.now → IsMovingNormal p cell m) }
    {
        match self.den {
            Some(den) => normal_over(alloc, &self.reduced, den),
            None => Err(FromFault::Overflow),
        }
    }

    /// What the circuits of the cell share. `Overflow` exactly where the denominator or a number of
    /// its columns doesn't fit.
    pub fn inverse(&self, alloc: Global) -> Result<ScaledInverse, FromFault>
        ensures { MatchResult result
            (λ inverse. FitsInverse self.now × (inverse ≡ inverse_of self.now))
            (IsFromFault (FitsInverse self.now)) }
    {
        match self.den {
            Some(den) => ScaledInverse::over(alloc, &self.reduced, den),
            None => Err(FromFault::Overflow),
        }
    }
}
