ghost use Rattle.std.specs.Prelude.{◌≡◌, ◌<◌, ◌≤◌, ◌↔◌, ◌+◌, ◌*◌, ◌^◌, ℕ, ℤ, List, ◌+ℤ◌, ◌-ℤ◌, ◌*ℤ◌, unsigned_abs, SomeIff, IfSome, IsTrue, MatchBool, length};
ghost use Rattle.wide_int.specs.Whole.{FitsWhole};
ghost use Rattle.int_vectors.specs.Bounds.{size, Within, SumBelow, Room, StepRoom, IsNarrow, IsNarrowStep};
ghost use Rattle.int_vectors.specs.Fits.{AllFit, FitsDot};
ghost use Rattle.int_vectors.specs.RowSteps.{eliminated, FitsEliminated};
ghost use Rattle.int_vectors.specs.Vectors as vectors;

use crate::narrow::take_off_narrow;
use crate::row_steps::take_off;
use crate::sums::dot_from;

/// The greatest absolute value.
pub fn greatest(a: &[i128]) -> u128
    ensures bound { Within result a.now }
    ensures least { (v : ℕ) → Within v a.now → result ≤ v }
{
    let mut most = 0u128;
    for x in a {
        let n = x.unsigned_abs();
        if n > most {
            most = n;
        }
    }
    most
}

/// The sum of the absolute values. `None` exactly where it is 2^128 or more.
pub fn row_size(a: &[i128]) -> Option<u128>
    ensures { SomeIff result (size a.now < 2 ^ 128) (size a.now) }
{
    let mut total = 0u128;
    for x in a {
        total = total.checked_add(x.unsigned_abs())?;
    }
    Some(total)
}

/// Whether each sum from `start` over a row of this size, with factors of at most `w`, fits by its
/// absolute values.
pub fn sum_fits(start: i128, row: u128, w: u128) -> bool
    ensures { IsTrue result ↔ (unsigned_abs start + row * w < 2 ^ 127) }
{
    match row.checked_mul(w) {
        Some(most) => match most.checked_add(start.unsigned_abs()) {
            Some(all) => all < 1 << 127,
            None => false,
        },
        None => false,
    }
}

/// Whether that holds of a row; a row whose size is 2^128 or more is refused.
pub fn row_fits(start: i128, a: &[i128], w: u128) -> bool
    ensures { IsTrue result → SumBelow (2 ^ 127) w start a.now }
{
    match row_size(a) {
        Some(size) => sum_fits(start, size, w),
        None => false,
    }
}

/// `start` plus the sum of the products, where a bound shows that each of its numbers fits.
pub fn dot_unchecked(start: i128, a: &[i128], b: &[i128]) -> i128
    requires lengths { length a.now ≡ length b.now }
    requires room { Room (2 ^ 127) start a.now b.now }
    ensures { result ≡ start +ℤ vectors.dot a.now b.now }
{
    let mut total = start;
    for (i, x) in a.iter().enumerate() {
        total = total + *x * b[i];
    }
    total
}

/// As `dot_from`, by one test in place of one for each number where that is enough; `w` bounds the
/// absolute values of the second vector.
pub fn dot_behind(start: i128, a: &[i128], b: &[i128], w: u128) -> Option<i128>
    requires lengths { length a.now ≡ length b.now }
    requires fits { FitsWhole start }
    requires within { Within w b.now }
    ensures { SomeIff result (FitsDot start a.now b.now) (start +ℤ vectors.dot a.now b.now) }
{
    if row_fits(start, a, w) {
        Some(dot_unchecked(start, a, b))
    } else {
        dot_from(start, a, b)
    }
}

// `|pivot| * u + |factor| * v`, if it is below 2^128.
fn products_sum(pivot: i128, u: u128, factor: i128, v: u128) -> Option<u128>
    ensures { SomeIff result (unsigned_abs pivot * u + unsigned_abs factor * v < 2 ^ 128) (unsigned_abs pivot * u + unsigned_abs factor * v) }
{
    let left = pivot.unsigned_abs().checked_mul(u)?;
    let right = factor.unsigned_abs().checked_mul(v)?;
    left.checked_add(right)
}

// Whether `pivot * x - factor * y` fits, for x of at most `u` and y of at most `v`.
fn step_fits(pivot: i128, u: u128, factor: i128, v: u128) -> bool
    ensures { IsTrue result ↔ (unsigned_abs pivot * u + unsigned_abs factor * v < 2 ^ 127) }
{
    match products_sum(pivot, u, factor, v) {
        Some(all) => all < 1 << 127,
        None => false,
    }
}

// Puts `pivot * x - factor * y` in each place, where a bound shows that each number fits.
fn take_off_unchecked(entries: &mut [i128], pivot: i128, factor: i128, by: &[i128])
    requires lengths { length entries.old ≡ length by.now }
    requires room { StepRoom (2 ^ 127) pivot factor entries.old by.now }
    ensures { entries.new ≡ eliminated pivot factor entries.old by.now }
{
    for i in 0..entries.len() {
        entries[i] = pivot * entries[i] - factor * by[i];
    }
}

// Whether the two products and their difference stay below 2^62.
fn products_short(pivot: i128, u: u128, factor: i128, v: u128) -> bool
    ensures { IsTrue result → (unsigned_abs pivot * u + unsigned_abs factor * v < 2 ^ 62) }
{
    match products_sum(pivot, u, factor, v) {
        Some(all) => all < 1 << 62,
        None => false,
    }
}

fn is_short(x: i128) -> bool
    ensures { IsTrue result → IsNarrow x }
{
    x.unsigned_abs() < 1 << 62
}

// Whether a step stays below 2^62, and so do its rows.
fn narrow_fits(pivot: i128, u: u128, factor: i128, v: u128) -> bool
    ensures { IsTrue result → IsNarrowStep pivot u factor v }
{
    is_short(pivot)
        && is_short(factor)
        && u < 1 << 62
        && v < 1 << 62
        && products_short(pivot, u, factor, v)
}

// As `take_off`, by one test in place of one for each number where that is enough; `u` and `v` bound
// the two rows.
pub(crate) fn take_off_behind(
    entries: &mut [i128],
    u: u128,
    pivot: i128,
    factor: i128,
    by: &[i128],
    v: u128,
) -> bool
    requires lengths { length entries.old ≡ length by.now }
    requires fits { AllFit entries.old }
    requires changed { Within u entries.old }
    requires other { Within v by.now }
    ensures value { MatchBool result
        (FitsEliminated pivot factor entries.old by.now × entries.new ≡ eliminated pivot factor entries.old by.now)
        (¬ (FitsEliminated pivot factor entries.old by.now)) }
    ensures fits { AllFit entries.new }
{
    if narrow_fits(pivot, u, factor, v) {
        take_off_narrow(entries, pivot, factor, by);
        true
    } else if step_fits(pivot, u, factor, v) {
        take_off_unchecked(entries, pivot, factor, by);
        true
    } else {
        take_off(entries, pivot, factor, by)
    }
}
