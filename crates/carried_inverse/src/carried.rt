ghost use Rattle.std.specs.Prelude.{IsTrue, ◌/◌, IfOk, IfSome, ◌∷◌, [], ◌-◌, ◌≡◌, ◌≢◌, ◌+◌, ◌*◌, ◌<◌, ◌≤◌, ◌^◌, ℕ, ℤ, List, pos, ◌*ℤ◌, ◌-ℤ◌, ◌+ℤ◌, ◌<ℤ◌, unsigned_abs, length, map};
ghost use Rattle.int_vectors.specs.Bounds.{Within};
ghost use Rattle.int_vectors.specs.Vectors.{Each, at, dot, row_at};
ghost use Rattle.cayley.specs.Cells as cells;
ghost use Rattle.cayley.specs.Cells.{IsOf};
ghost use Rattle.cayley.specs.Problems as problems;
ghost use Rattle.cayley.specs.Problems.{IsProblem, HasSamePoints};
ghost use Rattle.inner_normal.specs.MovingNormals.{IsMovingNormal};
ghost use Rattle.inner_normal.specs.Workings.{IsNormalFrom};
ghost use Rattle.carried_inverse.specs.Sums.{HasSumRoom, IsSum};
ghost use Rattle.cayley.specs.Rows.{edge_rows};
ghost use Rattle.cayley.specs.Dependencies.{IsFurtherAt, nth_support};
ghost use Rattle.inner_normal.specs.Inverses.{inverse_of};
ghost use Rattle.reduced_rows.specs.CellRefusals.{IsEliminated};
ghost use Rattle.carried_inverse.specs.Systems.{IsInverseOfCell};
ghost use Rattle.carried_inverse.specs.Exchanges.{IsExchanged, IsLowered, HasExchangeRoom};
ghost use Rattle.carried_inverse.specs.Answers.{IsExchange, IsStep, IsFlip, HasPairSigns};

use crate::beginning::{short, short_columns, zeros};
use crate::columns::{
    Column, combine_all, copy_columns, divide_all, divisor_of, greatest_of, products, turn,
};
use crate::combining::combine_lowest;
use crate::entries::{greatest, is_short, less, quotient, size, times};
use crate::falling::falls_of;
use crate::flips::{first_of, point_of, product_within, put_differences, signs_of};
use crate::sums::sums_of;
use cayley::{Cell, Problem, Sign};
use inner_normal::MovingNormal;
use reduced_rows::{FromFault, Reduced};
use std::alloc::Global;
use std::marker::Model;
use std::mem;

/// What an exchange of one row gives.
#[derive(Debug, Clone, Copy, PartialEq, Eq)]
pub enum Exchange {
    /// The inverse is that of the new rows.
    Made,
    /// The new rows are dependent; nothing has changed.
    Dependent,
    /// A number might not fit; nothing has changed.
    TooLarge,
}

/// The inverse of a cell's differences, times its least denominator, from which that of a cell that
/// differs in one row is made by an exchange.
#[derive(Drop)]
pub struct Carried {
    den: i64,
    columns: Vec<Column>,
    // Room for the columns of an exchange.
    spare: Vec<Column>,
    // A bound on the absolute values of the denominator and all entries.
    most: u64,
    // Room for the products of a new row and the columns, and for a column.
    shares: Vec<i64>,
    kept: Vec<i64>,
}

impl Model for Carried {
    ghost use Rattle.std.specs.Prelude.{◌≡◌, ◌≤◌, pos, ◌<ℤ◌, length, unsigned_abs};
    ghost use Rattle.int_vectors.specs.Bounds.{Within};
    ghost use Rattle.int_vectors.specs.Vectors.{Each};
    ghost use Rattle.inner_normal.specs.Inverses.{Inverse};

    ghost Value = { Inverse };

    ghost view = { λ a. record { den = a.den; columns = a.columns.items } };

    ghost invariant = { λ a. (pos 0 <ℤ a.den) × Each a.columns.items (λ column. length column ≡ length a.columns.items)
        × (length a.shares.items ≡ length a.columns.items) × (length a.kept.items ≡ length a.columns.items)
        × (unsigned_abs a.den ≤ a.most) × Each a.columns.items (Within a.most)
        × (length a.spare.items ≡ length a.columns.items) × Each a.spare.items (λ column. length column ≡ length a.columns.items) };
}

// Whether the bounds leave room for an exchange: `share` of the products, `most` of all else.
fn leaves_room(share: u64, most: u64) -> bool
    ensures { IsTrue result → (share < 2 ^ 61) × (most < 2 ^ 61) × ((2 * share + most) * most < 2 ^ 62) }
{
    share < 1 << 61 && most < 1 << 61 && is_short(2 * share as u128 + most as u128, most as u128)
}

// Divides a denominator and all entries by their greatest common divisor; gives what is left of the
// denominator.
fn lower(columns: &mut Vec<Column>, den: i64) -> i64
    requires { pos 0 <ℤ den }
    ensures { IsLowered den columns.old.items result columns.new.items }
{
    let g = divisor_of(den, columns);
    divide_all(columns, g);
    quotient(den, g)
}

// The columns of the new rows, by the products of the new row and the old columns; gives their
// denominator. Their divisor is found on the way.
fn exchange_columns(
    columns: &mut Vec<Column>,
    spare: &mut Vec<Column>,
    den: i64,
    place: usize,
    shares: &mut [i64],
    kept: &mut [i64],
) -> i64
    requires place { place < length columns.old.items }
    requires count { length shares.old ≡ length columns.old.items }
    requires kept { length kept.old ≡ length columns.old.items }
    requires long { Each columns.old.items (λ column. length column ≡ length columns.old.items) }
    requires spare_count { length spare.old.items ≡ length columns.old.items }
    requires spare_long { Each spare.old.items (λ column. length column ≡ length columns.old.items) }
    requires positive { pos 0 <ℤ den }
    requires other { at shares.old place ≢ pos 0 }
    requires room { HasExchangeRoom den shares.old columns.old.items }
    ensures exchanged { IsExchanged place den shares.old columns.old.items result columns.new.items }
    ensures spare_count { length spare.new.items ≡ length columns.old.items }
    ensures spare_long { Each spare.new.items (λ column. length column ≡ length columns.old.items) }
{
    let factor = turn(shares, place, den);
    let pivot = shares[place];
    let share = less(pivot, factor);
    shares[place] = share;
    let multiple = times(den, pivot);
    let by = columns[place].as_slice();
    if let Some(g) = combine_lowest(columns, pivot, shares, by, multiple, spare) {
        mem::swap(columns, spare);
        return quotient(multiple, g);
    }
    kept.copy_from_slice(columns[place].as_slice());
    combine_all(columns, pivot, shares, kept);
    lower(columns, multiple)
}

fn bound_fits(n: usize, b: u64, most: u64) -> bool
    ensures { IsTrue result → n * (b * most) < 2 ^ 62 }
{
    n <= 16 && b < 1 << 32 && is_short(n as u128 * b as u128, most as u128)
}

// Whether a bound on the numbers, and `most` on the entries of n columns, shows that each sum fits.
fn sums_fit(n: usize, numbers: &[i64], most: u64) -> bool
    ensures { (columns : List (List ℤ)) → IsTrue result → length columns ≡ n → Each columns (Within most) → HasSumRoom numbers.now columns }
{
    bound_fits(n, greatest(numbers), most)
}

// What an exchange makes of the columns.
enum Step {
    // Its denominator, and a bound on this and all entries.
    Made { den: i64, most: u64 },
    Dependent,
    TooLarge,
}

// A bound on what an exchange makes over `made`, by bounds on the products and on all else.
fn grown(share: u64, most: u64, den: i64, pivot: u64, made: i64) -> u64
    requires share { share < 2 ^ 61 }
    requires most { most < 2 ^ 61 }
    requires room { (2 * share + most) * most < 2 ^ 62 }
    requires product { unsigned_abs den * pivot < 2 ^ 62 }
    requires made { pos 0 <ℤ made }
    requires divisor { 0 < (unsigned_abs den * pivot) / unsigned_abs made }
    ensures { result ≡ ((2 * share + most) * most) / ((unsigned_abs den * pivot) / unsigned_abs made) }
{
    (2 * share + most) * most / (den.unsigned_abs() * pivot / made.unsigned_abs())
}

// The bound, or a less one where it isn't small.
fn settled(most: u64, den: i64, columns: &[Column]) -> u64
    requires den { unsigned_abs den ≤ most }
    requires columns { Each columns.now (Within most) }
    ensures den { unsigned_abs den ≤ result }
    ensures columns { Each columns.now (Within result) }
{
    if most < 1 << 20 {
        most
    } else {
        greatest_of(den, columns)
    }
}

// One exchange of columns over `den`.
fn exchange_step(
    columns: &mut Vec<Column>,
    spare: &mut Vec<Column>,
    den: i64,
    most: u64,
    place: usize,
    row: &[i64],
    shares: &mut [i64],
    kept: &mut [i64],
) -> Step
    requires place { place < length columns.old.items }
    requires row { length row.now ≡ length columns.old.items }
    requires count { length shares.old ≡ length columns.old.items }
    requires kept { length kept.old ≡ length columns.old.items }
    requires long { Each columns.old.items (λ column. length column ≡ length columns.old.items) }
    requires positive { pos 0 <ℤ den }
    requires den_most { unsigned_abs den ≤ most }
    requires most { Each columns.old.items (Within most) }
    requires spare_count { length spare.old.items ≡ length columns.old.items }
    requires spare_long { Each spare.old.items (λ column. length column ≡ length columns.old.items) }
    ensures step { IsStep place den row.now columns.old.items columns.new.items result }
    ensures spare_count { length spare.new.items ≡ length columns.old.items }
    ensures spare_long { Each spare.new.items (λ column. length column ≡ length columns.old.items) }
{
    if !is_short(size(row), most as u128) {
        return Step::TooLarge;
    }
    products(row, columns, shares);
    if shares[place] == 0 {
        return Step::Dependent;
    }
    let share = greatest(shares);
    if !leaves_room(share, most) {
        return Step::TooLarge;
    }
    let pivot = shares[place].unsigned_abs();
    let made = exchange_columns(columns, spare, den, place, shares, kept);
    Step::Made {
        den: made,
        most: grown(share, most, den, pivot, made),
    }
}

impl Carried {
    /// The inverse that these reduced rows of a cell's edge rows give. `Overflow` where a number
    /// of it doesn't fit.
    pub fn of(alloc: Global, reduced: &Reduced) -> Result<Carried, FromFault>
        requires widths { Each reduced.now (λ row. length row ≡ 2 * length reduced.now + 2) }
        ensures value { IfOk result (λ a. a ≡ inverse_of reduced.now) }
        ensures inverse { IfOk result (λ a. (p : problems.Problem) (cell : cells.Cell) → IsProblem p → IsOf p cell
            → IsEliminated p.dimension (edge_rows p cell) reduced.now → IsInverseOfCell p cell a) }
    {
        let Some(den) = reduced.denominator() else {
            return Err(FromFault::Overflow);
        };
        let columns = short_columns(alloc, reduced, den)?;
        let Some(den) = short(den) else {
            return Err(FromFault::Overflow);
        };
        let most = greatest_of(den, &columns);
        let spare = copy_columns(alloc, &columns)?;
        let shares = zeros(alloc, reduced.count())?;
        let kept = zeros(alloc, reduced.count())?;
        Ok(Carried {
            den,
            most,
            columns,
            spare,
            shares,
            kept,
        })
    }

    /// An equal inverse.
    pub fn copy(&self, alloc: Global) -> Result<Carried, FromFault>
        ensures { IfOk result (λ a. a ≡ self.now) }
    {
        let columns = copy_columns(alloc, &self.columns)?;
        let spare = copy_columns(alloc, &self.columns)?;
        let shares = zeros(alloc, self.columns.len())?;
        let kept = zeros(alloc, self.columns.len())?;
        Ok(Carried {
            den: self.den,
            most: self.most,
            columns,
            spare,
            shares,
            kept,
        })
    }

    /// The number of columns, which is that of the rows.
    pub fn count(&self) -> usize
        ensures { result ≡ length self.now.columns }
    {
        self.columns.len()
    }

    /// The denominator.
    pub fn den(&self) -> i64
        ensures value { result ≡ self.now.den }
        ensures positive { pos 0 <ℤ result }
    {
        self.den
    }

    /// The column at a place, which counts from 0: its numbers are over the denominator.
    pub fn column(&self, place: usize) -> &[i64]
        requires { place < length self.now.columns }
        ensures { result.now ≡ row_at self.now.columns place }
    {
        self.columns[place].as_slice()
    }

    /// The inverse of the rows with `row` in the place of the one at `place`, counted from 0.
    pub fn exchange(&mut self, place: usize, row: &[i64]) -> Exchange
        requires place { place < length self.old.columns }
        requires row { length row.now ≡ length self.old.columns }
        ensures { IsExchange place row.now self.old self.new result }
    {
        match exchange_step(
            &mut self.columns,
            &mut self.spare,
            self.den,
            self.most,
            place,
            row,
            &mut self.shares,
            &mut self.kept,
        ) {
            Step::Made { den, most } => {
                self.most = settled(most, den, &self.columns);
                self.den = den;
                Exchange::Made
            }
            Step::Dependent => Exchange::Dependent,
            Step::TooLarge => Exchange::TooLarge,
        }
    }

    /// The inverse of the cell with another pair in a support, which counts from 1; `row` is room
    /// for as many numbers as the dimension.
    pub fn flip(
        &mut self,
        problem: &Problem,
        support: u32,
        pair: (u32, u32),
        row: &mut [i64],
    ) -> Exchange
        requires support { (1 ≤ support) × (support ≤ problem.now.dimension) }
        requires pair { (1 ≤ pair.0) × (pair.0 < pair.1) × (pair.1 ≤ length (nth_support problem.now.supports (support - 1))) }
        requires count { length self.old.columns ≡ problem.now.dimension }
        requires row { length row.old ≡ problem.now.dimension }
        ensures flip { IsFlip problem.now (support - 1) pair self.old self.new result }
        ensures row { length row.new ≡ length row.old }
    {
        let a = point_of(problem, support, pair.0);
        let b = point_of(problem, support, pair.1);
        put_differences(a.coords.as_slice(), b.coords.as_slice(), row);
        self.exchange(support as usize - 1, row)
    }

    /// The vectors that are the sums of the columns times two lists of numbers, over the
    /// denominator. `Overflow` where a number of it might not fit.
    fn sums(&self, alloc: Global, bases: &[i64], speeds: &[i64]) -> Result<MovingNormal, FromFault>
        requires bases { length bases.now ≡ length self.now.columns }
        requires speeds { length speeds.now ≡ length self.now.columns }
        ensures { IfOk result (λ m. m.den ≡ self.now.den × IsSum (length self.now.columns) bases.now self.now.columns m.p × IsSum (length self.now.columns) speeds.now self.now.columns m.q) }
    {
        let count = self.columns.len();
        if !sums_fit(count, bases, self.most) || !sums_fit(count, speeds, self.most) {
            return Err(FromFault::Overflow);
        }
        sums_of(alloc, self.den, bases, speeds, &self.columns)
    }

    /// The normal at all times of the cell. `Overflow` where a number of it might not fit.
    pub fn normal(
        &self,
        alloc: Global,
        problem: &Problem,
        cell: &Cell,
    ) -> Result<MovingNormal, FromFault>
        requires of { IsOf problem.now cell.now }
        requires inverse { IsInverseOfCell problem.now cell.now self.now }
        ensures normal { IfOk result (λ m. (p : problems.Problem) → HasSamePoints p problem.now → IsMovingNormal p cell.now m) }
        // The numbers are those of the elimination's normal.
        ensures numbers { IfOk result (λ m. (made : List (List ℤ)) → IsEliminated problem.now.dimension (edge_rows problem.now cell.now) made → IsNormalFrom made m) }
    {
        // A problem is valid by its type, as its readers tell.
        let _dim = problem.dim();
        let falls = falls_of(alloc, problem, cell)?;
        self.sums(alloc, &falls.bases, &falls.speeds)
    }

    /// The signs of the dependency of the cell and the further point of `support` at `position`, which
    /// count from 1, that is positive at this point: at the first and the second point of the
    /// support's pair. `None` where a number might not fit.
    pub fn signs(
        &self,
        problem: &Problem,
        cell: &Cell,
        support: u32,
        position: u32,
    ) -> Option<(Sign, Sign)>
        requires of { IsOf problem.now cell.now }
        requires inverse { IsInverseOfCell problem.now cell.now self.now }
        requires point { (1 ≤ support) × (support ≤ problem.now.dimension) × IsFurtherAt problem.now cell.now (support - 1) position }
        ensures { IfSome result (HasPairSigns problem.now cell.now (support - 1) position) }
    {
        let a = point_of(problem, support, first_of(problem, cell, support));
        let c = point_of(problem, support, position);
        let column = self.columns[support as usize - 1].as_slice();
        let m = product_within(a.coords.as_slice(), c.coords.as_slice(), column)?;
        Some(signs_of(m, self.den))
    }
}
