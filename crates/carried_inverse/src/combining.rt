ghost use Rattle.std.specs.Prelude.{◌≡◌, ◌+◌, ◌*◌, ◌<◌, ◌≤◌, ◌^◌, ℕ, ℤ, List, pos, ◌<ℤ◌, unsigned_abs, IfSome, length, map, take};
ghost use Prim.Native.Nat.{◌∣◌};
ghost use Rattle.int_vectors.specs.Bounds.{Within};
ghost use Rattle.int_vectors.specs.Contents.{DividesEach};
ghost use Rattle.int_vectors.specs.Vectors.{Each, scale};
ghost use Rattle.carried_inverse.specs.Exchanges.{combined, IsDivisorOf, IsDividedTo, HasRoom};

use crate::columns::Column;
use crate::entries::{combined_at, common, quotient};

// How often the divisor is made less for a column.
const DIVISORS: u32 = 64;

// Multiplies the first columns.
fn multiply_front(made: &mut Vec<Column>, count: usize, factor: i64)
    requires count { count ≤ length made.old.items }
    requires room { (w : ℕ) × Each (take count made.old.items) (Within w) × (unsigned_abs factor * w < 2 ^ 62) }
    ensures front { take count made.new.items ≡ map (scale factor) (take count made.old.items) }
    ensures count { length made.new.items ≡ length made.old.items }
    ensures long { (n : ℕ) → Each made.old.items (λ x. length x ≡ n) → Each made.new.items (λ x. length x ≡ n) }
{
    for k in 0..count {
        made[k].multiply(factor);
    }
}

// Puts the combination of a column, divided by a divisor of g, in its place of `made`, and multiplies
// the columns before it, so that they are divided by the same; gives that divisor. `None` where many
// were tried.
fn put_column(
    columns: &[Column],
    k: usize,
    pivot: i64,
    shares: &[i64],
    by: &[i64],
    start: i64,
    made: &mut Vec<Column>,
) -> Option<i64>
    requires place { k < length columns.now }
    requires count { length shares.now ≡ length columns.now }
    requires long { Each columns.now (λ column. length column ≡ length by.now) }
    requires made_count { length made.old.items ≡ length columns.now }
    requires made_long { Each made.old.items (λ column. length column ≡ length by.now) }
    requires positive { pos 0 <ℤ start }
    requires room { HasRoom pivot shares.now columns.now by.now }
    requires front { combined pivot (take k shares.now) (take k columns.now) by.now ≡ map (scale start) (take k made.old.items) }
    ensures value { IfSome result (λ g. IsDividedTo (k + 1) start g pivot shares.now columns.now by.now made.new.items) }
    ensures count { length made.new.items ≡ length columns.now }
    ensures long { Each made.new.items (λ column. length column ≡ length by.now) }
{
    let mut g = start;
    for _turn in 0..DIVISORS {
        match columns[k].combine_divided(pivot, shares[k], by, g, &mut made[k]) {
            None => return Some(g),
            Some(left) => {
                let less = common(left, g);
                multiply_front(made, k, quotient(g, less));
                g = less;
            }
        }
    }
    None
}

// The greatest common divisor of `start` and one number of each combination, which mostly is that of
// all numbers.
fn divisor_along(columns: &[Column], pivot: i64, shares: &[i64], by: &[i64], start: i64) -> i64
    requires square { length by.now ≡ length columns.now }
    requires count { length shares.now ≡ length columns.now }
    requires long { Each columns.now (λ column. length column ≡ length by.now) }
    requires positive { pos 0 <ℤ start }
    requires room { HasRoom pivot shares.now columns.now by.now }
    ensures positive { pos 0 <ℤ result }
    ensures divides { unsigned_abs result ∣ unsigned_abs start }
    ensures greatest { (d : ℕ) → d ∣ unsigned_abs start → Each (combined pivot shares.now columns.now by.now) (DividesEach d) → d ∣ unsigned_abs result }
{
    let mut g = start;
    for k in 0..columns.len() {
        let one = combined_at(columns[k].as_slice(), pivot, shares[k], by, k);
        g = common(one, g);
    }
    g
}

// Puts the combinations, divided by the greatest common divisor of `start` and all their numbers, in
// the places of the columns `made`, and gives that divisor. `None` where many divisors were tried.
pub(crate) fn combine_lowest(
    columns: &[Column],
    pivot: i64,
    shares: &[i64],
    by: &[i64],
    start: i64,
    made: &mut Vec<Column>,
) -> Option<i64>
    requires square { length by.now ≡ length columns.now }
    requires count { length shares.now ≡ length columns.now }
    requires long { Each columns.now (λ column. length column ≡ length by.now) }
    requires made_count { length made.old.items ≡ length columns.now }
    requires made_long { Each made.old.items (λ column. length column ≡ length by.now) }
    requires positive { pos 0 <ℤ start }
    requires room { HasRoom pivot shares.now columns.now by.now }
    ensures value { let multiples = combined pivot shares.now columns.now by.now in
        IfSome result (λ g. (pos 0 <ℤ g) × IsDivisorOf (unsigned_abs start) multiples (unsigned_abs g) × (multiples ≡ map (scale g) made.new.items)) }
    ensures count { length made.new.items ≡ length columns.now }
    ensures long { Each made.new.items (λ column. length column ≡ length by.now) }
{
    let mut g = divisor_along(columns, pivot, shares, by, start);
    for k in 0..columns.len() {
        g = put_column(columns, k, pivot, shares, by, g, made)?;
    }
    Some(g)
}
