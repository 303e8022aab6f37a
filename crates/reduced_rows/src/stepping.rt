ghost use Rattle.std.specs.Prelude.{◌≡◌, ◌<◌, ℕ, ℤ, List, map, Some, None, MatchOption, MatchBool, length};
ghost use Rattle.int_vectors.specs.Contents.{primitive};
ghost use Rattle.int_vectors.specs.RowSteps.{cleaned};
ghost use Rattle.reduced_rows.specs.Steps as working;
ghost use Rattle.reduced_rows.specs.Steps.{OfLength, signed, FitsCleanedAll};

use int_vectors::IntVec;

/// Divides each row by the gcd of its entries.
pub fn primitive_all(rows: &mut Vec<IntVec>)
    ensures { rows.new.items ≡ map primitive rows.old.items }
{
    for i in 0..rows.len() {
        rows[i].primitive();
    }
}

/// Clears column `k`, counted from 0, of all rows by the row `by`, and tells whether each number
/// fits; where one doesn't, the rows are left as they then stand.
pub fn clean_all(rows: &mut Vec<IntVec>, by: &IntVec, k: usize) -> bool
    requires place { k < length by.now }
    requires lengths { OfLength (length by.now) rows.old.items }
    ensures { MatchBool result
        (FitsCleanedAll k by.now rows.old.items × rows.new.items ≡ map (cleaned k by.now) rows.old.items)
        (¬ (FitsCleanedAll k by.now rows.old.items)) }
{
    let most = by.greatest();
    for i in 0..rows.len() {
        if !rows[i].clean(by, k, most) {
            return false;
        }
    }
    true
}

// Takes the first row with an entry in column `k` out, after it was exchanged with the first row.
fn pick(rest: &mut Vec<IntVec>, k: usize) -> Option<IntVec>
    requires lengths { (n : ℕ) × (k < n) × OfLength n rest.old.items }
    ensures { MatchOption result (working.pick k rest.old.items ≡ None) (λ y. working.pick k rest.old.items ≡ Some (y, rest.new.items)) }
{
    for i in 0..rest.len() {
        if rest[i].get(k) != 0 {
            rest.swap(0, i);
            return Some(rest.remove(0));
        }
    }
    None
}

// Makes the entry in column `k` positive.
fn make_positive(row: &mut IntVec, k: usize)
    requires { k < length row.old }
    ensures { row.new ≡ signed k row.old }
{
    if row.get(k) < 0 {
        row.negate();
    }
}

/// Takes the next pivot row out: the first row with an entry in column `k`, counted from 0, after it
/// was exchanged with the first row. Its sign is turned where the pivot would be negative. `None`
/// where there is no such row.
pub fn pivot(rest: &mut Vec<IntVec>, k: usize) -> Option<IntVec>
    requires lengths { (n : ℕ) × (k < n) × OfLength n rest.old.items }
    ensures { MatchOption result (working.pick k rest.old.items ≡ None)
        (λ y. (x : List ℤ) × (working.pick k rest.old.items ≡ Some (x, rest.new.items)) × (y ≡ signed k x)) }
{
    let mut row = pick(rest, k)?;
    make_positive(&mut row, k);
    Some(row)
}
