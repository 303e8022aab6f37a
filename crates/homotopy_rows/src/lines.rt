// The powers of each line of a listing.
ghost use Rattle.std.specs.Prelude.{◌≡◌, ◌↔◌, ℕ, Err, IfOk, MatchResult, map};
ghost use Rattle.cayley.specs.Files.{plain_problem};
ghost use Rattle.cayley.specs.Problems.{version2};
ghost use Rattle.cell_certificate.specs.Answers.{IsRight};
ghost use Rattle.cell_certificate.specs.Judgements.{HasSums, HasLevel};
ghost use Rattle.cell_certificate.specs.Written.{IsListed, AreListed};
ghost use Rattle.homotopy_rows.specs.Answers.{HadMemory, EachRow, IsLineFault, IsRowFault, IsGood};
ghost use Rattle.homotopy_rows.specs.Flat.{IsFlat, FirstFlat};
ghost use Rattle.homotopy_rows.specs.Powers.{SideBySide, ArePowers, HasLeastScale, IsZeroAtPairs};
ghost use Rattle.homotopy_rows.specs.Stored.{row};
ghost use Rattle.homotopy_rows.specs.declared.rows.RowFault.TheVariants as faults;

use crate::rows::{PowerRow, RowFault};
use crate::scaling::{common_divisor, divide_each};
use crate::sums::all_sums;
use cayley::LiftFile;
use listing_text::{ListedCell, Listing};
use std::alloc::Global;
use wide_int::exact_quotient;

// The powers of a line. `Flat` with its number exactly where the sum of a further point is 0.
fn row_of(alloc: Global, file: &LiftFile, listed: &ListedCell) -> Result<PowerRow, RowFault>
    requires listed { IsListed (plain_problem file.now) listed.now }
    requires fits { HasSums (plain_problem file.now) listed.now }
    requires level { HasLevel (plain_problem file.now) listed.now }
    ensures { let p = plain_problem file.now in
        MatchResult result (λ r. IsGood p listed.now (row r)) (IsLineFault (IsFlat p listed.now) listed.now.line) }
{
    let mut powers = match all_sums(alloc, file, listed) {
        Ok(sums) => sums,
        Err(fault) => return Err(fault),
    };
    let den = listed.normal.den;
    let g = common_divisor(den, &powers);
    divide_each(&mut powers, g);
    Ok(PowerRow {
        cell: listed.cell.copy(),
        scale: exact_quotient(den, g),
        powers,
    })
}

// The powers of each line, in order. `Flat` exactly at the first with a further point of the sum 0.
fn rows(alloc: Global, listing: &Listing) -> Result<Vec<PowerRow>, RowFault>
    requires listed { AreListed listing.now }
    requires right { IsRight listing.now }
    ensures { MatchResult result (λ rows. SideBySide listing.now.cells.items rows.items (λ x r. IsGood (plain_problem listing.now.file) x (row r))) (IsRowFault (plain_problem listing.now.file) listing.now.cells.items) }
{
    let mut rows = Vec::new(alloc);
    for listed in &listing.cells {
        if rows.reserve(1).is_err() {
            return Err(RowFault::OutOfMemory);
        }
        let row = match row_of(alloc, &listing.file, listed) {
            Ok(row) => row,
            Err(fault) => return Err(fault),
        };
        rows.push_reserved(row);
    }
    Ok(rows)
}

/// The powers of each cell of a listing that was judged right, in its order.
///
/// With a line's normal v over `den`, the sum of a point x of a support is
/// `den * (h(x) - h(a)) + <x - a, v>`, where a is the first point of the line's pair and h the file's
/// height. With g the greatest common divisor of `den` and all sums of the line, the scale is
/// `den / g` and the power of x is its sum over g. So the system's coefficients times t to the power
/// of their points, with t taken to the scale, start from two terms in each equation (Huber and
/// Sturmfels 1995).
///
/// `Flat` comes exactly at the first line in which the sum of a further point is 0. This can only be
/// where heights have infinitesimals: such a point lies above by its infinitesimal alone.
pub fn rows_of(alloc: Global, listing: &Listing) -> Result<Vec<PowerRow>, RowFault>
    requires listed { AreListed listing.now }
    requires right { IsRight listing.now }
    ensures powers { IfOk result (λ rows. EachRow listing.now (map row rows.items) ArePowers) }
    ensures least { IfOk result (λ rows. EachRow listing.now (map row rows.items) HasLeastScale) }
    ensures zero { IfOk result (λ rows. EachRow listing.now (map row rows.items) (λ p x r. IsZeroAtPairs p r)) }
    ensures flat { HadMemory result → (number : ℕ) → (result ≡ Err (faults.Flat number)) ↔ FirstFlat (plain_problem listing.now.file) listing.now.cells.items number }
    // Only where heights have infinitesimals.
    ensures perturbed { (number : ℕ) → result ≡ Err (faults.Flat number) → listing.now.file.version ≡ version2 }
{
    // A lift file is valid by its type, as its readers tell.
    let _dim = listing.file.dim();
    rows(alloc, listing)
}
