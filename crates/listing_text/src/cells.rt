// The cell lines of a listing, read line by line.
ghost use Rattle.std.specs.Prelude.{◌≡◌, ◌≤◌, ◌<◌, ◌^◌, ℕ, ℤ, [], length, All, IfOk};
ghost use Rattle.cayley.specs.Cells.{IsCell};
ghost use Rattle.cayley.specs.Valid.{IsValidCell};
ghost use Rattle.support_text.specs.Faults.{Gives, series};
ghost use Rattle.support_text.specs.Words as spec;
ghost use Rattle.support_text.specs.Words.{words};
ghost use Rattle.listing_text.specs.ListingText as listing;
ghost use Rattle.listing_text.specs.ListingText.{pair_at, normal_entry, cell_at, part_at, part_of, next_number};
ghost use Rattle.support_text.specs.ProblemText.{end_line};

use crate::listing::{CellPart, ListedCell};
use cayley::{Cell, Normal};
use int_vectors::IntVec;
use line_text::{Line, Lines};
use std::alloc::Global;
use support_text::{Kind, TextFault, end_line, fault_at, next_line, nothing_more, number, word};

const LARGEST: i128 = i128::MAX;

const CELLS: i128 = 4_294_967_295;

// `cells K`
#[tactic(auto, unfolding(crate::specs::ListingText::cells_line))]
fn cells_line(line: &mut Line) -> Result<usize, TextFault>
    ensures { Gives (λ n. n) result (listing.cells_line line.old.number (words line.old)) }
{
    word(line, b"cells", Kind::Count)?;
    let count = number(line, 0, CELLS, Kind::Count, Kind::Count)?;
    nothing_more(line, Kind::Count)?;
    Ok(count as usize)
}

// `cells K`: the number of its line, and K.
#[tactic(auto, unfolding(support_text::specs::Words::next_line))]
fn cell_count(lines: &mut Lines) -> Result<(u64, usize), TextFault>
    ensures reading { Gives (λ x. (x.1, lines.new.rows)) result (spec.next_line listing.cells_line lines.old.end_line lines.old.rows) }
    ensures number { IfOk result (λ x. x.0 ≡ next_number lines.old.end_line lines.old.rows) }
    ensures end_line { lines.new.end_line ≡ lines.old.end_line }
{
    let mut line = next_line(lines)?;
    let number = line.number();
    let count = cells_line(&mut line)?;
    Ok((number, count))
}

// Two positions, of which the first is less, up to a limit.
#[tactic(auto, unfolding(crate::specs::ListingText::pair))]
fn pair(line: &mut Line, count: usize) -> Result<(u32, u32), TextFault>
    requires least { 1 ≤ count }
    requires greatest { count ≤ 4294967295 }
    ensures reading { Gives (λ x. (x, words line.new)) result (listing.pair count line.old.number (words line.old)) }
    ensures rises { IfOk result (λ x. (1 ≤ x.0) × (x.0 < x.1)) }
    ensures number { line.new.number ≡ line.old.number }
{
    let first = number(line, 1, count as i128, Kind::Number, Kind::Range)?;
    let second = number(line, 1, count as i128, Kind::Number, Kind::Range)?;
    let pair = (first as u32, second as u32);
    if pair.0 < pair.1 {
        Ok(pair)
    } else {
        Err(fault_at(line.number(), Kind::Range))
    }
}

// A pair for each support.
fn pairs(alloc: Global, counts: &[usize], line: &mut Line) -> Result<Vec<(u32, u32)>, TextFault>
    requires { All (λ m. (1 ≤ m) × (m ≤ 4294967295)) counts.now }
    ensures reading { Gives (λ pairs. (pairs.items, words line.new)) result (series (length counts.now) (pair_at counts.now line.old.number) [] (words line.old)) }
    ensures rise { IfOk result (λ pairs. (length pairs.items ≡ length counts.now) × IsCell pairs.items) }
    ensures number { line.new.number ≡ line.old.number }
{
    let mut pairs = Vec::new(alloc);
    for place in 0..counts.len() {
        if pairs.reserve(1).is_err() {
            return Err(TextFault::OutOfMemory);
        }
        let found = match pair(line, counts[place]) {
            Ok(found) => found,
            Err(fault) => return Err(fault),
        };
        pairs.push_reserved(found);
    }
    Ok(pairs)
}

/// `n` numbers, each from -(2^127 - 1) to 2^127 - 1.
pub fn read_vector(alloc: Global, n: usize, line: &mut Line) -> Result<IntVec, TextFault>
    ensures reading { Gives (λ v. (v, words line.new)) result (series n (normal_entry line.old.number) [] (words line.old)) }
    ensures number { line.new.number ≡ line.old.number }
{
    let mut entries = Vec::new(alloc);
    for _turn in 0..n {
        if entries.reserve(1).is_err() {
            return Err(TextFault::OutOfMemory);
        }
        let entry = match number(line, -LARGEST, LARGEST, Kind::Number, Kind::Range) {
            Ok(entry) => entry,
            Err(fault) => return Err(fault),
        };
        entries.push_reserved(entry);
    }
    Ok(IntVec::from_vec(entries))
}

// The cell of pairs that make one.
fn cell_of(alloc: Global, pairs: &[(u32, u32)]) -> Cell
    requires { IsValidCell pairs.now }
    ensures { result ≡ pairs.now }
{
    match Cell::new(alloc, pairs) {
        Some(cell) => cell,
        None => unreachable!(),
    }
}

/// A cell: a pair of positions for each of the supports, of which the second is at most that support's
/// number in `counts`, and the first is less.
pub fn read_positions(alloc: Global, counts: &[usize], line: &mut Line) -> Result<Cell, TextFault>
    requires least { 1 ≤ length counts.now }
    requires greatest { length counts.now ≤ 16 }
    requires counts { All (λ m. (1 ≤ m) × (m ≤ 4294967295)) counts.now }
    ensures reading { Gives (λ cell. (cell, words line.new)) result (series (length counts.now) (pair_at counts.now line.old.number) [] (words line.old)) }
    ensures number { line.new.number ≡ line.old.number }
{
    let pairs = pairs(alloc, counts, line)?;
    Ok(cell_of(alloc, pairs.as_slice()))
}

// A cell line.
#[tactic(auto, unfolding(crate::specs::ListingText::cell_line))]
fn cell_line(alloc: Global, counts: &[usize], line: &mut Line) -> Result<ListedCell, TextFault>
    requires least { 1 ≤ length counts.now }
    requires greatest { length counts.now ≤ 16 }
    requires counts { All (λ m. (1 ≤ m) × (m ≤ 1000)) counts.now }
    ensures { Gives (λ cell. cell) result (listing.cell_line counts.now line.old.number (words line.old)) }
{
    word(line, b"cell", Kind::Count)?;
    let cell = read_positions(alloc, counts, line)?;
    word(line, b":", Kind::Number)?;
    let v = read_vector(alloc, counts.len(), line)?;
    word(line, b"/", Kind::Number)?;
    let den = number(line, 1, LARGEST, Kind::Number, Kind::Range)?;
    nothing_more(line, Kind::Number)?;
    let line = line.number();
    Ok(ListedCell {
        line,
        cell,
        normal: Normal { v, den },
    })
}

#[tactic(auto, unfolding(support_text::specs::Words::next_line))]
fn cell(alloc: Global, counts: &[usize], lines: &mut Lines) -> Result<ListedCell, TextFault>
    requires least { 1 ≤ length counts.now }
    requires greatest { length counts.now ≤ 16 }
    requires counts { All (λ m. (1 ≤ m) × (m ≤ 1000)) counts.now }
    ensures reading { Gives (λ cell. (cell, lines.new.rows)) result (spec.next_line (listing.cell_line counts.now) lines.old.end_line lines.old.rows) }
    ensures end_line { lines.new.end_line ≡ lines.old.end_line }
{
    let mut line = next_line(lines)?;
    cell_line(alloc, counts, &mut line)
}

// So many cell lines.
fn cell_lines(
    alloc: Global,
    counts: &[usize],
    count: usize,
    lines: &mut Lines,
) -> Result<Vec<ListedCell>, TextFault>
    requires least { 1 ≤ length counts.now }
    requires greatest { length counts.now ≤ 16 }
    requires counts { All (λ m. (1 ≤ m) × (m ≤ 1000)) counts.now }
    ensures reading { Gives (λ cells. (cells.items, lines.new.rows)) result (series count (cell_at counts.now lines.old.end_line) [] lines.old.rows) }
    ensures end_line { lines.new.end_line ≡ lines.old.end_line }
{
    let mut cells = Vec::new(alloc);
    for _turn in 0..count {
        if cells.reserve(1).is_err() {
            return Err(TextFault::OutOfMemory);
        }
        let found = match cell(alloc, counts, lines) {
            Ok(found) => found,
            Err(fault) => return Err(fault),
        };
        cells.push_reserved(found);
    }
    Ok(cells)
}

// `end`, and the number of its line.
#[tactic(auto, unfolding(support_text::specs::Words::next_line))]
fn last_line(lines: &mut Lines) -> Result<u64, TextFault>
    ensures reading { Gives (λ number. (tt, lines.new.rows)) result (spec.next_line end_line lines.old.end_line lines.old.rows) }
    ensures number { IfOk result (λ number. number ≡ next_number lines.old.end_line lines.old.rows) }
    ensures end_line { lines.new.end_line ≡ lines.old.end_line }
{
    let mut line = next_line(lines)?;
    let end_number = line.number();
    end_line(&mut line)?;
    Ok(end_number)
}

/// The lines `cells K` through `end` of supports of so many file points. What follows is left in
/// `lines`.
#[tactic(auto, unfolding(crate::specs::ListingText::part_at))]
pub fn part(alloc: Global, counts: &[usize], lines: &mut Lines) -> Result<CellPart, TextFault>
    requires least { 1 ≤ length counts.now }
    requires greatest { length counts.now ≤ 16 }
    requires counts { All (λ m. (1 ≤ m) × (m ≤ 1000)) counts.now }
    ensures reading { Gives (λ part. (part_of part, lines.new.rows)) result (part_at counts.now lines.old.end_line lines.old.rows) }
    ensures end_line { lines.new.end_line ≡ lines.old.end_line }
{
    let (cells_line, count) = cell_count(lines)?;
    let cells = cell_lines(alloc, counts, count, lines)?;
    let end_line = last_line(lines)?;
    Ok(CellPart {
        cells_line,
        cells,
        end_line,
    })
}
