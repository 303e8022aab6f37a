ghost use Rattle.std.specs.Prelude.{◌≡◌, ◌<◌, ◌≤◌, ◌-◌, ℕ, [], slice_index_or, Ok, MatchResult, IfOk, IfErr, length};
ghost use Rattle.reduced_rows.specs.Refusals.{IsFault, HasKernel, HadMemory, OverflowExactly, DependentExactly};
ghost use Rattle.reduced_rows.specs.Spans.{IsReducedOf};
ghost use Rattle.reduced_rows.specs.Steps.{OfLength, elimination, FitsElimination};
ghost use Rattle.table_update.specs.Answers.{reduced_of};
ghost use Rattle.table_update.specs.Exchanges.{with_row};
ghost use Rattle.table_update.specs.States.{HasSteps, AreStates};

use crate::states::State;
use int_vectors::IntVec;
use reduced_rows::{ReduceFault, Reduced, copy_rows};
use std::alloc::Global;
use std::marker::Model;

/// Rows, the states of their elimination after the first divisions and after each step, and the
/// reduced rows. There are as many rows as columns that are cleared.
#[derive(Drop)]
pub struct Table {
    rows: Vec<IntVec>,
    states: Vec<State>,
    reduced: Reduced,
}

impl Model for Table {
    ghost use Rattle.table_update.specs.States.{Elimination, IsElimination};

    ghost Value = { Elimination };

    ghost view = { λ a. record { rows = a.rows.items; states = a.states.items; reduced = a.reduced } };

    ghost invariant = { λ a. IsElimination (record { rows = a.rows.items; states = a.states.items; reduced = a.reduced }) };
}

// The table of the rows. The states up to that after `from` steps stand already; the later ones are
// made, each from the one before it.
fn finish(
    alloc: Global,
    rows: Vec<IntVec>,
    mut states: Vec<State>,
    from: usize,
) -> Result<Table, ReduceFault>
    requires lengths { (n : ℕ) × (length rows.items ≤ n) × OfLength n rows.items }
    requires from { from ≤ length rows.items }
    requires count { from < length states.items }
    requires steps { HasSteps from rows.items }
    requires states { AreStates from rows.items states.items }
    ensures { MatchResult result
        (λ table. (table.rows ≡ rows.items) × FitsElimination (length rows.items) rows.items × (elimination (length rows.items) rows.items ≡ Ok table.reduced))
        (IsFault (length rows.items) rows.items) }
{
    let columns = rows.len();
    states.truncate(from + 1);
    for k in from..columns {
        let state = match states[k].next(alloc, k, columns - k - 1) {
            Ok(state) => state,
            Err(fault) => return Err(fault),
        };
        states.push(state)?;
    }
    let reduced = Reduced::new(copy_rows(alloc, states[columns].done())?);
    Ok(Table {
        rows,
        states,
        reduced,
    })
}

// The first state, and all others from it.
fn made(alloc: Global, rows: Vec<IntVec>) -> Result<Table, ReduceFault>
    requires { (n : ℕ) × (length rows.items ≤ n) × OfLength n rows.items }
    ensures { MatchResult result
        (λ table. (table.rows ≡ rows.items) × FitsElimination (length rows.items) rows.items × (elimination (length rows.items) rows.items ≡ Ok table.reduced))
        (IsFault (length rows.items) rows.items) }
{
    let mut states = Vec::new(alloc);
    let first = State::start(alloc, &rows)?;
    states.push(first)?;
    finish(alloc, rows, states, 0)
}

// The new row is taken through the states by the pivot rows that stand there, up to the step that
// picks it or the old one; from there on all is done afresh.
fn exchanged(alloc: Global, table: Table, place: usize, row: IntVec) -> Result<Table, ReduceFault>
    requires first { 1 ≤ place }
    requires last { place ≤ length table.rows }
    requires length { length row ≡ length (slice_index_or table.rows (place - 1) []) }
    ensures { let rows = with_row place row table.rows in MatchResult result
        (λ made. (made.rows ≡ rows) × FitsElimination (length rows) rows × (elimination (length rows) rows ≡ Ok made.reduced))
        (IsFault (length rows) rows) }
{
    let Table {
        mut rows,
        mut states,
        ..
    } = table;
    let mut now = row.copy(alloc)?;
    now.primitive();
    let mut at = place - 1;
    rows[at] = row;
    let mut k = 0;
    while let Some(to) = states[k].place_after(k, at, &now) {
        let mut passed = now.copy(alloc)?;
        if !states[k + 1].clear(&mut passed, k) {
            return Err(ReduceFault::Overflow);
        }
        states[k].put(at, now);
        now = passed;
        at = to;
        k += 1;
    }
    states[k].put(at, now);
    finish(alloc, rows, states, k)
}

impl Table {
    /// The table of these rows, all of one length, which is at least their number. `Overflow` exactly
    /// where a number of the elimination or of the kernel doesn't fit, else `Dependent` exactly where
    /// the rows, cut to as many columns as there are rows, are dependent.
    pub fn new(alloc: Global, rows: Vec<IntVec>) -> Result<Table, ReduceFault>
        requires { (n : ℕ) × (length rows.items ≤ n) × OfLength n rows.items }
        ensures rows { IfOk result (λ table. table.rows ≡ rows.items) }
        // Ok: reduced rows of the same span, and the rows are independent.
        ensures reduced { IfOk result (λ table. IsReducedOf (length rows.items) rows.items table.reduced) }
        // Dependent: the kernel isn't zero, and it is orthogonal to each cut row.
        ensures kernel { IfErr result (HasKernel (length rows.items) rows.items) }
        ensures overflow { HadMemory (reduced_of result) → OverflowExactly (length rows.items) rows.items (reduced_of result) }
        ensures dependent { HadMemory (reduced_of result) → DependentExactly (length rows.items) rows.items (reduced_of result) }
        // The numbers that come out are those of the working.
        ensures working { MatchResult result
            (λ table. FitsElimination (length rows.items) rows.items × (elimination (length rows.items) rows.items ≡ Ok table.reduced))
            (IsFault (length rows.items) rows.items) }
    {
        made(alloc, rows)
    }

    /// The rows in order.
    pub fn rows(&self) -> &[IntVec]
        ensures value { result.now ≡ self.now.rows }
        ensures lengths { (n : ℕ) × (length result.now ≤ n) × OfLength n result.now }
    {
        &self.rows
    }

    /// The reduced rows of the rows.
    pub fn reduced(&self) -> &Reduced
        ensures value { result.now ≡ self.now.reduced }
        ensures fits { FitsElimination (length self.now.rows) self.now.rows }
        ensures working { elimination (length self.now.rows) self.now.rows ≡ Ok result.now }
        ensures reduced { IsReducedOf (length self.now.rows) self.now.rows result.now }
    {
        &self.reduced
    }

    /// The table of the rows with another row at `place`, counted from 1; the row has the length of
    /// the others. `Overflow` and `Dependent` exactly where `new` of these rows has them, with the
    /// same kernel. What is refused is given up.
    pub fn exchange(self, alloc: Global, place: usize, row: IntVec) -> Result<Table, ReduceFault>
        requires first { 1 ≤ place }
        requires last { place ≤ length self.rows }
        requires length { length row ≡ length (slice_index_or self.rows (place - 1) []) }
        ensures rows { IfOk result (λ table. table.rows ≡ with_row place row self.rows) }
        // Ok: reduced rows of the same span, and the rows are independent.
        ensures reduced { let rows = with_row place row self.rows in IfOk result (λ table. IsReducedOf (length rows) rows table.reduced) }
        // Dependent: the kernel isn't zero, and it is orthogonal to each cut row.
        ensures kernel { IfErr result (HasKernel (length (with_row place row self.rows)) (with_row place row self.rows)) }
        ensures overflow { let rows = with_row place row self.rows in HadMemory (reduced_of result) → OverflowExactly (length rows) rows (reduced_of result) }
        ensures dependent { let rows = with_row place row self.rows in HadMemory (reduced_of result) → DependentExactly (length rows) rows (reduced_of result) }
        // The numbers that come out are those of the working.
        ensures working { let rows = with_row place row self.rows in MatchResult result
            (λ table. FitsElimination (length rows) rows × (elimination (length rows) rows ≡ Ok table.reduced))
            (IsFault (length rows) rows) }
    {
        // The rows are of one length by the type, as its field tells.
        let _ = &self.rows;
        exchanged(alloc, self, place, row)
    }
}
