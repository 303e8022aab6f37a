ghost use Rattle.std.specs.Prelude.{◌≡◌, ◌<◌, ◌≤◌, ℕ, ℤ, List, [], pos, ◌<ℤ◌, SomeIff, IfSome, MatchResult, IfOk, slice_index_or, ◌-◌, length, unsigned_abs};
ghost use Rattle.wide_int.specs.Whole.{FitsWhole};
ghost use Rattle.int_vectors.specs.Vectors.{Each, at};
ghost use Rattle.reduced_rows.specs.Denominators.{lcm_from, FitsLcm, shares, FitsShares};
ghost use Rattle.reduced_rows.specs.Refusals.{IsFromFault};
ghost use Rattle.reduced_rows.specs.Solutions as solutions;
ghost use Rattle.reduced_rows.specs.Spans.{HaveForm};

use crate::denominators::{lcm_of_pivots, shares_of};
use crate::faults::FromFault;
use int_vectors::IntVec;
use std::alloc::Global;
use std::marker::Model;
use wide_int::OutOfMemory;

/// Reduced rows: row k, counted from 1, has a positive pivot in column k and 0 in the other columns
/// up to their number, and the gcd of its entries is 1.
#[derive(Debug, Drop)]
pub struct Reduced {
    rows: Vec<IntVec>,
}

impl Model for Reduced {
    ghost Value = { List (List ℤ) };

    ghost view = { λ a. a.rows.items };

    ghost invariant = { λ a. HaveForm a.rows.items };
}

/// Equal rows.
pub fn copy_rows(alloc: Global, rows: &[IntVec]) -> Result<Vec<IntVec>, OutOfMemory>
    ensures { IfOk result (λ v. v.items ≡ rows.now) }
{
    let Ok(mut copied) = Vec::with_capacity(alloc, rows.len()) else {
        return Err(OutOfMemory);
    };
    for row in rows {
        let Ok(copy) = row.copy(alloc) else {
            return Err(OutOfMemory);
        };
        if let Err(_) = copied.push(copy) {
            return Err(OutOfMemory);
        }
    }
    Ok(copied)
}

impl Reduced {
    /// Rows that have this form already; takes no memory.
    pub fn new(rows: Vec<IntVec>) -> Reduced
        requires { HaveForm rows.items }
        ensures { result ≡ rows.items }
    {
        Reduced { rows }
    }

    /// Equal rows.
    pub fn copy(&self, alloc: Global) -> Result<Reduced, OutOfMemory>
        ensures { IfOk result (λ v. v ≡ self.now) }
    {
        let rows = copy_rows(alloc, &self.rows)?;
        Ok(Reduced { rows })
    }

    /// The number of rows, which is that of the columns that were cleared.
    pub fn count(&self) -> usize
        ensures { result ≡ length self.now }
    {
        self.rows.len()
    }

    /// Row `k`, counted from 1.
    pub fn row(&self, k: usize) -> &IntVec
        requires first { 1 ≤ k }
        requires last { k ≤ length self.now }
        ensures value { result.now ≡ slice_index_or self.now (k - 1) [] }
        // Each row has its pivot, 0 in the other columns up to their number, and no common divisor.
        ensures form { HaveForm self.now }
    {
        &self.rows[k - 1]
    }

    /// The pivot of row `k`, counted from 1: its entry in column k.
    pub fn pivot(&self, k: usize) -> i128
        requires first { 1 ≤ k }
        requires last { k ≤ length self.now }
        ensures value { result ≡ at (slice_index_or self.now (k - 1) []) (k - 1) }
        ensures fits { FitsWhole result }
        ensures positive { pos 0 <ℤ result }
        ensures form { HaveForm self.now }
    {
        self.rows[k - 1].get(k - 1)
    }

    /// The least common multiple of all pivots, formed in order from 1. `None` exactly where a step
    /// of that doesn't fit.
    pub fn denominator(&self) -> Option<i128>
        ensures value { SomeIff result (FitsLcm 0 1 self.now) (pos (lcm_from 0 1 self.now)) }
        ensures fits { IfSome result (λ den. FitsWhole den) }
        ensures positive { IfSome result (λ den. pos 0 <ℤ den) }
    {
        lcm_of_pivots(&self.rows)
    }

    /// The numbers -(x (den / p)) of the rows, where x is the row's entry in a column, counted from
    /// 0, and p its pivot. Over the denominator `den` they solve for that column. `Overflow` exactly
    /// where a number x (den / p) doesn't fit.
    pub fn solution(&self, alloc: Global, column: usize, den: i128) -> Result<IntVec, FromFault>
        requires column { Each self.now (λ row. column < length row) }
        requires positive { pos 0 <ℤ den }
        ensures { MatchResult result
            (λ v. FitsShares column 0 (unsigned_abs den) self.now × (v ≡ shares column 0 (unsigned_abs den) self.now))
            (IsFromFault (FitsShares column 0 (unsigned_abs den) self.now)) }
    {
        match shares_of(alloc, &self.rows, column, den, 0)? {
            Some(entries) => Ok(IntVec::from_vec(entries)),
            None => Err(FromFault::Overflow),
        }
    }

    /// The numbers x (den / p) of the rows, as in `solution`: a column of `den` times the inverse,
    /// where the rows began with unit vectors in these columns. `Overflow` exactly where one of them
    /// doesn't fit.
    pub fn scaled_column(
        &self,
        alloc: Global,
        column: usize,
        den: i128,
    ) -> Result<IntVec, FromFault>
        requires column { Each self.now (λ row. column < length row) }
        requires positive { pos 0 <ℤ den }
        ensures { MatchResult result
            (λ v. FitsShares column 0 (unsigned_abs den) self.now × (v ≡ solutions.scaled_column column 0 (unsigned_abs den) self.now))
            (IsFromFault (FitsShares column 0 (unsigned_abs den) self.now)) }
    {
        let mut v = self.solution(alloc, column, den)?;
        v.negate();
        Ok(v)
    }
}
