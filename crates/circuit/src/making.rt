ghost use Rattle.std.specs.Prelude.{◌≡◌, ◌↔◌, ◌-◌, ◌≤◌, MatchResult, IfOk, IfErr};
ghost use Rattle.reduced_rows.specs.CellRefusals.{IsEliminated, IsCellFault, OnDependent, HasAnswer, IsCellDependent, CellOverflowExactly};
ghost use Rattle.reduced_rows.specs.Refusals.{IsFromFault};
ghost use Rattle.reduced_rows.specs.Steps.{FitsElimination};
ghost use Rattle.cayley.specs.Cells.{IsOf, IsIndependent, IsCellKernel};
ghost use Rattle.cayley.specs.Dependencies.{IsFurtherAt};
ghost use Rattle.cayley.specs.Problems as problems;
ghost use Rattle.cayley.specs.Problems.{HasSamePoints};
ghost use Rattle.cayley.specs.Rows.{edge_rows};
ghost use Rattle.circuit.specs.Circuits.{IsCircuit};
ghost use Rattle.inner_normal.specs.Coefficients.{difference, FitsCoefficients, FitsCircuit};
ghost use Rattle.inner_normal.specs.Inverses.{inverse_of, IsInverseOf};
ghost use Rattle.circuit.specs.Workings.{IsCircuitFrom, IsCircuitOfRows, FitsCircuitWorking};

use crate::circuits::Circuit;
use cayley::{Cell, Problem};
use inner_normal::{Eliminated, ScaledInverse, coefficients_at};
use reduced_rows::{CellFault, FromFault, Reduced};
use std::alloc::Global;

/// The circuit of a cell and the further point of `support` at `position`, which count from 1, by
/// the scaled inverse of the cell. `Overflow` exactly where a number of this circuit doesn't fit. No
/// memory is taken but for the coefficients.
pub fn circuit_with(
    alloc: Global,
    problem: &Problem,
    cell: &Cell,
    inverse: &ScaledInverse,
    support: u32,
    position: u32,
) -> Result<Circuit, FromFault>
    requires cell { IsOf problem.now cell.now }
    requires point { (1 ≤ support) × (support ≤ problem.now.dimension) × IsFurtherAt problem.now cell.now (support - 1) position }
    requires inverse { IsInverseOf problem.now cell.now inverse.now }
    ensures circuit { IfOk result (λ c. (p : problems.Problem) → HasSamePoints p problem.now → IsCircuit p cell.now (support - 1) position c) }
    ensures working { let fits = FitsCoefficients (support - 1) inverse.now (difference problem.now cell.now (support - 1) position) in MatchResult result
        (λ c. fits × IsCircuitFrom problem.now cell.now (support - 1) position inverse.now c)
        (IsFromFault fits) }
{
    let coefficients = coefficients_at(alloc, problem, cell, inverse, support, position)?;
    Ok(Circuit {
        coefficients,
        scale: inverse.den(),
        support,
    })
}

/// The circuit of a cell and the further point of `support` at `position`, which count from 1.
/// `reduced` is the answer of `reduce` on the cell's edge rows. `Overflow` exactly where a number of
/// the denominator or of this circuit doesn't fit.
pub fn circuit_from(
    alloc: Global,
    problem: &Problem,
    cell: &Cell,
    reduced: &Reduced,
    support: u32,
    position: u32,
) -> Result<Circuit, FromFault>
    requires cell { IsOf problem.now cell.now }
    requires point { (1 ≤ support) × (support ≤ problem.now.dimension) × IsFurtherAt problem.now cell.now (support - 1) position }
    requires answer { IsEliminated problem.now.dimension (edge_rows problem.now cell.now) reduced.now }
    // The dependency that is positive at the further point, of the problem and of each with the same
    // points in another version or with other ranks.
    ensures circuit { IfOk result (λ c. (p : problems.Problem) → HasSamePoints p problem.now → IsCircuit p cell.now (support - 1) position c) }
    ensures working { let fits = FitsCircuit problem.now cell.now (support - 1) position reduced.now in MatchResult result
        (λ c. fits × IsCircuitFrom problem.now cell.now (support - 1) position (inverse_of reduced.now) c)
        (IsFromFault fits) }
{
    // A problem is valid by its type, as its readers tell.
    let _dim = problem.dim();
    let inverse = ScaledInverse::of(alloc, reduced)?;
    circuit_with(alloc, problem, cell, &inverse, support, position)
}

// The circuit by the elimination of the cell's rows.
fn circuit_of_rows(
    alloc: Global,
    problem: &Problem,
    cell: &Cell,
    support: u32,
    position: u32,
) -> Result<Circuit, CellFault>
    requires cell { IsOf problem.now cell.now }
    requires point { (1 ≤ support) × (support ≤ problem.now.dimension) × IsFurtherAt problem.now cell.now (support - 1) position }
    ensures circuit { IfOk result (λ c. (p : problems.Problem) → HasSamePoints p problem.now → IsCircuit p cell.now (support - 1) position c) }
    ensures working { MatchResult result
        (IsCircuitOfRows problem.now cell.now (support - 1) position)
        (IsCellFault (FitsCircuitWorking problem.now cell.now (support - 1) position) problem.now.dimension (edge_rows problem.now cell.now)) }
{
    let eliminated = Eliminated::of(alloc, problem, cell)?;
    let circuit = circuit_from(
        alloc,
        problem,
        cell,
        eliminated.reduced(),
        support,
        position,
    )?;
    Ok(circuit)
}

/// The circuit of a cell and the further point of `support` at `position`, which count from 1.
/// `Overflow` exactly where a number of the elimination, kernel, denominator or circuit doesn't fit,
/// else `Dependent` exactly where the differences are dependent.
pub fn circuit_of(
    alloc: Global,
    problem: &Problem,
    cell: &Cell,
    support: u32,
    position: u32,
) -> Result<Circuit, CellFault>
    requires cell { IsOf problem.now cell.now }
    requires point { (1 ≤ support) × (support ≤ problem.now.dimension) × IsFurtherAt problem.now cell.now (support - 1) position }
    // As of `circuit_from`.
    ensures circuit { IfOk result (λ c. (p : problems.Problem) → HasSamePoints p problem.now → IsCircuit p cell.now (support - 1) position c) }
    ensures overflow { HasAnswer result → CellOverflowExactly (FitsCircuitWorking problem.now cell.now (support - 1) position) result }
    ensures dependent { HasAnswer result → IsCellDependent result
        ↔ (FitsElimination problem.now.dimension (edge_rows problem.now cell.now) × ¬ (IsIndependent problem.now cell.now)) }
    // Dependent: the kernel isn't zero, and it is orthogonal to each difference of the pairs.
    ensures kernel { IfErr result (OnDependent (IsCellKernel problem.now cell.now)) }
    // The numbers that come out are those of the working.
    ensures working { MatchResult result
        (IsCircuitOfRows problem.now cell.now (support - 1) position)
        (IsCellFault (FitsCircuitWorking problem.now cell.now (support - 1) position) problem.now.dimension (edge_rows problem.now cell.now)) }
{
    // A problem is valid by its type, as its readers tell.
    let _dim = problem.dim();
    circuit_of_rows(alloc, problem, cell, support, position)
}
