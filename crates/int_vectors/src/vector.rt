ghost use Rattle.std.specs.Prelude.{◌≡◌, ◌<◌, ◌≤◌, ℕ, ℤ, List, pos, ◌<ℤ◌, unsigned_abs, MatchBool, MatchResult, IsTrue, ◌↔◌, ◌+ℤ◌, IfOk, length};
ghost use Rattle.wide_int.specs.Whole.{FitsWhole};
ghost use Rattle.int_vectors.specs.Bounds.{Within};
ghost use Rattle.int_vectors.specs.Contents as contents;
ghost use Rattle.int_vectors.specs.Contents.{DividesEach, IsContent};
ghost use Rattle.int_vectors.specs.Fits.{AllFit, FitsDot};
ghost use Rattle.int_vectors.specs.Refusals.{IsUnfit, IsSubFault};
ghost use Rattle.int_vectors.specs.RowSteps as steps;
ghost use Rattle.int_vectors.specs.RowSteps.{cleaned, FitsCleaned};
ghost use Rattle.int_vectors.specs.Vectors as vectors;
ghost use Rattle.int_vectors.specs.Vectors.{at};

use crate::bounds::greatest;
use crate::contents::{content, divide_entries, make_primitive};
use crate::faults::{IntVecFault, SubFault};
use crate::row_steps::{clean_entries, negate_all};
use crate::sums::{differences, dot_from};
use std::alloc::Global;
use std::marker::Model;
use wide_int::{OutOfMemory, Overflow};

/// A vector of whole numbers that all fit: none has an absolute value above 2^127 - 1.
#[derive(Debug, Drop)]
pub struct IntVec {
    entries: Vec<i128>,
}

impl Model for IntVec {
    ghost Value = { List ℤ };

    ghost view = { λ a. a.entries.items };

    ghost invariant = { λ a. AllFit a.entries.items };
}

fn all_fit(entries: &[i128]) -> bool
    ensures { IsTrue result ↔ AllFit entries.now }
{
    for x in entries {
        if *x == i128::MIN {
            return false;
        }
    }
    true
}

fn no_entry(entries: &[i128]) -> bool
    ensures { IsTrue result ↔ vectors.IsZero entries.now }
{
    for x in entries {
        if *x != 0 {
            return false;
        }
    }
    true
}

impl IntVec {
    /// The vector of these entries; takes no memory.
    pub fn from_vec(entries: Vec<i128>) -> IntVec
        requires { AllFit entries.items }
        ensures { result ≡ entries.items }
    {
        IntVec { entries }
    }

    /// A vector of the same entries. `Unfit` exactly where an entry is -2^127.
    pub fn from_slice(alloc: Global, entries: &[i128]) -> Result<IntVec, IntVecFault>
        ensures { MatchResult result (λ v. AllFit entries.now × v ≡ entries.now) (IsUnfit entries.now) }
    {
        if !all_fit(entries) {
            return Err(IntVecFault::Unfit);
        }
        let mut copied = Vec::new(alloc);
        match copied.extend_from_slice(entries) {
            Ok(()) => Ok(IntVec { entries: copied }),
            Err(_) => Err(IntVecFault::OutOfMemory),
        }
    }

    /// The entries in order.
    pub fn as_slice(&self) -> &[i128]
        ensures value { result.now ≡ self.now }
        ensures fits { AllFit result.now }
    {
        &self.entries
    }

    /// The number of entries.
    pub fn len(&self) -> usize
        ensures { result ≡ length self.now }
    {
        self.entries.len()
    }

    /// The entry at a place, counted from 0.
    pub fn get(&self, place: usize) -> i128
        requires { place < length self.now }
        ensures value { result ≡ at self.now place }
        ensures fits { FitsWhole result }
    {
        self.entries[place]
    }

    /// Whether each entry is 0.
    pub fn is_zero(&self) -> bool
        ensures { IsTrue result ↔ vectors.IsZero self.now }
    {
        no_entry(&self.entries)
    }

    /// An equal vector.
    pub fn copy(&self, alloc: Global) -> Result<IntVec, OutOfMemory>
        ensures { IfOk result (λ v. v ≡ self.now) }
    {
        let mut copied = Vec::new(alloc);
        match copied.extend_from_slice(&self.entries) {
            Ok(()) => Ok(IntVec { entries: copied }),
            Err(_) => Err(OutOfMemory),
        }
    }

    /// This vector less another of the same length. `Overflow` exactly where a difference doesn't
    /// fit.
    pub fn sub(&self, alloc: Global, other: &IntVec) -> Result<IntVec, SubFault>
        requires { length self.now ≡ length other.now }
        ensures { MatchResult result (λ v. AllFit (vectors.sub self.now other.now) × v ≡ vectors.sub self.now other.now) (IsSubFault self.now other.now) }
    {
        match differences(alloc, &self.entries, &other.entries) {
            Ok(entries) => Ok(IntVec { entries }),
            Err(fault) => Err(fault),
        }
    }

    /// The greatest common divisor of the entries, 0 where each is 0.
    pub fn content(&self) -> i128
        ensures value { result ≡ pos (contents.content self.now) }
        // It divides each entry, and each number that does divides it.
        ensures greatest { IsContent self.now (contents.content self.now) }
        ensures fits { FitsWhole result }
    {
        content(&self.entries)
    }

    /// Divides each entry by the greatest common divisor of the entries; a zero vector stays.
    pub fn primitive(&mut self)
        ensures value { self.new ≡ contents.primitive self.old }
        ensures divided { self.old ≡ vectors.scale (pos (contents.content self.old)) self.new }
        ensures greatest { IsContent self.old (contents.content self.old) }
    {
        make_primitive(&mut self.entries);
    }

    /// Divides each entry by `g`, which divides each of them.
    pub fn divide(&mut self, g: i128)
        requires positive { pos 0 <ℤ g }
        requires exact { DividesEach (unsigned_abs g) self.old }
        ensures { self.old ≡ vectors.scale g self.new }
    {
        divide_entries(&mut self.entries, g);
    }

    /// Turns the sign of each entry.
    pub fn negate(&mut self)
        ensures { self.new ≡ steps.negated self.old }
    {
        negate_all(&mut self.entries);
    }

    /// The greatest absolute value of an entry.
    pub fn greatest(&self) -> u128
        ensures bound { Within result self.now }
        ensures least { (v : ℕ) → Within v self.now → result ≤ v }
    {
        greatest(&self.entries)
    }

    /// One step of an elimination: clears the entry in column `k`, counted from 0, by the row `by`,
    /// and divides by the gcd of the entries; `most` bounds the absolute values of `by`. Tells
    /// whether each number of that fits; where one doesn't, the entries are left as they then stand.
    pub fn clean(&mut self, by: &IntVec, k: usize, most: u128) -> bool
        requires place { k < length by.now }
        requires lengths { length self.old ≡ length by.now }
        requires within { Within most by.now }
        ensures value { MatchBool result (FitsCleaned k by.now self.old × self.new ≡ cleaned k by.now self.old) (¬ (FitsCleaned k by.now self.old)) }
        ensures length { length self.new ≡ length self.old }
    {
        clean_entries(&mut self.entries, &by.entries, k, most)
    }
}

/// `start` plus the sum of the products of two vectors of one length. `Overflow` exactly where a
/// product, or a partial sum in order of places, doesn't fit.
pub fn dot(start: i128, a: &IntVec, b: &IntVec) -> Result<i128, Overflow>
    requires lengths { length a.now ≡ length b.now }
    requires fits { FitsWhole start }
    ensures value { MatchResult result (λ d. FitsDot start a.now b.now × d ≡ start +ℤ vectors.dot a.now b.now) (λ _. ¬ (FitsDot start a.now b.now)) }
    ensures fits { IfOk result (λ d. FitsWhole d) }
{
    match dot_from(start, &a.entries, &b.entries) {
        Some(sum) => Ok(sum),
        None => Err(Overflow),
    }
}
