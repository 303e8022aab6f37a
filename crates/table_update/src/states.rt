ghost use Rattle.std.specs.Prelude.{◌≡◌, ◌<◌, ℕ, List, MatchResult, MatchBool, IfSome, IfOk, length};
ghost use Rattle.int_vectors.specs.RowSteps.{cleaned, FitsCleaned};
ghost use Rattle.int_vectors.specs.Vectors.{Each, row_at};
ghost use Rattle.reduced_rows.specs.Denominators.{HavePivots};
ghost use Rattle.reduced_rows.specs.Steps.{OfLength};
ghost use Rattle.table_update.specs.Answers.{IsStepFault};
ghost use Rattle.table_update.specs.Exchanges.{with_rest, IsFirst, IsPassed};
ghost use Rattle.table_update.specs.States.{HasStep};
ghost use Rattle.table_update.specs.States as states;

use int_vectors::IntVec;
use reduced_rows::stepping::{clean_all, pivot, primitive_all};
use reduced_rows::{ReduceFault, copy_rows, dependent};
use std::alloc::Global;
use std::marker::Model;
use wide_int::OutOfMemory;

// The rows of an elimination between two steps: those that were picked, and the rest.
#[derive(Drop)]
pub(crate) struct State {
    done: Vec<IntVec>,
    rest: Vec<IntVec>,
}

impl Model for State {
    ghost use Rattle.table_update.specs.States.{Split};

    ghost Value = { Split };

    ghost view = { λ a. record { done = a.done.items; rest = a.rest.items } };
}

// The first row with an entry in column `k`, by its place.
fn first_with(rows: &[IntVec], k: usize) -> Option<usize>
    requires { Each rows.now (λ row. k < length row) }
    ensures { IfSome result (λ i. IsFirst k i rows.now) }
{
    for (i, other) in rows.iter().enumerate() {
        if other.get(k) != 0 {
            return Some(i);
        }
    }
    None
}

// Where a row that replaces the one at `at` stands after the step on column `k`, unless one of the
// two is picked by it.
fn place_after(rows: &[IntVec], k: usize, at: usize, row: &IntVec) -> Option<usize>
    requires lengths { Each rows.now (λ row. k < length row) }
    requires row { k < length row.now }
    requires at { at < length rows.now }
    ensures { IfSome result (λ to. IsPassed k at to row.now rows.now) }
{
    let first = first_with(rows, k)?;
    if first < at {
        return Some(at - 1);
    }
    if first == at {
        return None;
    }
    if row.get(k) != 0 {
        return None;
    }
    if at == 0 {
        Some(first - 1)
    } else {
        Some(at - 1)
    }
}

impl State {
    // The state before the first step.
    pub(crate) fn start(alloc: Global, rows: &[IntVec]) -> Result<State, OutOfMemory>
        ensures { IfOk result (λ s. s ≡ states.start rows.now) }
    {
        let mut rest = copy_rows(alloc, rows)?;
        primitive_all(&mut rest);
        Ok(State {
            done: Vec::new(alloc),
            rest,
        })
    }

    // The state after the step on column `k`, behind which there are `more` steps.
    pub(crate) fn next(&self, alloc: Global, k: usize, more: usize) -> Result<State, ReduceFault>
        requires pivots { HavePivots 0 self.now.done }
        requires done { (n : ℕ) × (k < n) × OfLength n self.now.done × OfLength n self.now.rest }
        ensures { MatchResult result
            (λ s. HasStep k self.now × (s ≡ states.next k self.now))
            (IsStepFault more k self.now) }
    {
        let mut done = copy_rows(alloc, &self.done)?;
        let mut rest = copy_rows(alloc, &self.rest)?;
        let Some(by) = pivot(&mut rest, k) else {
            return Err(dependent(alloc, &done, k, more));
        };
        if !clean_all(&mut done, &by, k) {
            return Err(ReduceFault::Overflow);
        }
        if !clean_all(&mut rest, &by, k) {
            return Err(ReduceFault::Overflow);
        }
        done.push(by)?;
        Ok(State { done, rest })
    }
    // The rows that were picked, one for each step.
    pub(crate) fn done(&self) -> &[IntVec]
        ensures { result.now ≡ self.now.done }
    {
        &self.done
    }

    // Where a row that replaces the one at `at` stands after the step on column `k`, unless one of
    // the two is picked by it.
    pub(crate) fn place_after(&self, k: usize, at: usize, row: &IntVec) -> Option<usize>
        requires lengths { Each self.now.rest (λ other. k < length other) }
        requires row { k < length row.now }
        requires at { at < length self.now.rest }
        ensures { IfSome result (λ to. IsPassed k at to row.now self.now.rest) }
    {
        place_after(&self.rest, k, at, row)
    }

    // Clears column `k` of a row by the row that the step on it picked, and tells whether each
    // number fits.
    pub(crate) fn clear(&self, row: &mut IntVec, k: usize) -> bool
        requires place { k < length self.now.done }
        requires column { k < length (row_at self.now.done k) }
        requires lengths { length row.old ≡ length (row_at self.now.done k) }
        ensures length { length row.new ≡ length row.old }
        ensures value { MatchBool result
            (FitsCleaned k (row_at self.now.done k) row.old × row.new ≡ cleaned k (row_at self.now.done k) row.old)
            (¬ (FitsCleaned k (row_at self.now.done k) row.old)) }
    {
        let by = &self.done[k];
        row.clean(by, k, by.greatest())
    }

    // Puts a row in the place of that at `at` of the rest.
    pub(crate) fn put(&mut self, at: usize, row: IntVec)
        requires { at < length self.old.rest }
        ensures { self.new ≡ with_rest at row self.old }
    {
        self.rest[at] = row;
    }
}
