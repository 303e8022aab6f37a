// Move files, read from their bytes.
ghost use Rattle.std.specs.Prelude.{◌≡◌, ℕ, ℤ, List, [], length, map, Ok};
ghost use Rattle.int_vectors.specs.Vectors.{Each};
ghost use Rattle.cayley.specs.Problems.{version1};
ghost use Rattle.cayley.specs.Shapes.{AreSecondHeights};
ghost use Rattle.cayley.specs.Valid.{IsValidFile};
ghost use Rattle.support_text.specs.Faults.{Gives, series};
ghost use Rattle.support_text.specs.Stored.{heights_view};
ghost use Rattle.support_text.specs.Words as spec;
ghost use Rattle.support_text.specs.Words.{words};
ghost use Rattle.listing_text.specs.Forms.{IsOfFile};
ghost use Rattle.listing_text.specs.ListingText.{Listed};
ghost use Rattle.lift_move.specs.MoveText as text;
ghost use Rattle.lift_move.specs.MoveText.{heights_at, move_of, move_view, second_height};

use cayley::HEIGHT;
use line_text::{Line, Lines};
use listing_text::{Listing, point_counts, read_listing_lines};
use std::alloc::Global;
use support_text::{Kind, TextFault, end, next_line, no_line, nothing_more, number, word};

/// A listing of one lift, and the second heights of its file's points.
#[derive(Drop)]
pub struct MoveFile {
    /// Of the first version.
    pub listing: Listing,
    /// For each support a height for each of its points.
    pub second: Vec<Vec<i64>>,
}

const LARGEST: i128 = HEIGHT as i128;

// `mixedcells 1`
#[tactic(auto, unfolding(crate::specs::MoveText::first_header))]
fn first_header(line: &mut Line) -> Result<(), TextFault>
    ensures { Gives (λ done. tt) result (text.first_header line.old.number (words line.old)) }
{
    word(line, b"mixedcells", Kind::Header)?;
    word(line, b"1", Kind::Header)?;
    nothing_more(line, Kind::Header)
}

#[tactic(auto, unfolding(support_text::specs::Words::next_line))]
fn header(lines: &mut Lines) -> Result<(), TextFault>
    ensures { Gives (λ done. (tt, lines.new.rows)) result (spec.next_line text.first_header lines.old.end_line lines.old.rows) }
{
    let mut line = next_line(lines)?;
    first_header(&mut line)
}

// So many second heights.
fn height_list(alloc: Global, count: usize, line: &mut Line) -> Result<Vec<i64>, TextFault>
    ensures reading { Gives (λ heights. (heights.items, words line.new)) result (series count (second_height line.old.number) [] (words line.old)) }
    ensures number { line.new.number ≡ line.old.number }
{
    let mut heights = Vec::new(alloc);
    for _turn in 0..count {
        if heights.reserve(1).is_err() {
            return Err(TextFault::OutOfMemory);
        }
        let height = match number(line, -LARGEST, LARGEST, Kind::Number, Kind::Range) {
            Ok(height) => height,
            Err(fault) => return Err(fault),
        };
        heights.push_reserved(height as i64);
    }
    Ok(heights)
}

// `heights` and so many numbers.
#[tactic(auto, unfolding(crate::specs::MoveText::heights_line))]
fn heights_line(alloc: Global, count: usize, line: &mut Line) -> Result<Vec<i64>, TextFault>
    ensures { Gives (λ heights. heights.items) result (text.heights_line count line.old.number (words line.old)) }
{
    word(line, b"heights", Kind::Count)?;
    let heights = height_list(alloc, count, line)?;
    nothing_more(line, Kind::Number)?;
    Ok(heights)
}

#[tactic(auto, unfolding(support_text::specs::Words::next_line))]
fn heights(alloc: Global, count: usize, lines: &mut Lines) -> Result<Vec<i64>, TextFault>
    ensures reading { Gives (λ heights. (heights.items, lines.new.rows)) result (spec.next_line (text.heights_line count) lines.old.end_line lines.old.rows) }
    ensures end_line { lines.new.end_line ≡ lines.old.end_line }
{
    let mut line = next_line(lines)?;
    heights_line(alloc, count, &mut line)
}

// The second heights of all supports, which have so many points.
fn all_heights(
    alloc: Global,
    counts: &[usize],
    lines: &mut Lines,
) -> Result<Vec<Vec<i64>>, TextFault>
    ensures reading { Gives (λ second. (map heights_view second.items, lines.new.rows)) result (series (length counts.now) (heights_at counts.now lines.old.end_line) [] lines.old.rows) }
    ensures end_line { lines.new.end_line ≡ lines.old.end_line }
{
    let mut second = Vec::new(alloc);
    for place in 0..counts.len() {
        if second.reserve(1).is_err() {
            return Err(TextFault::OutOfMemory);
        }
        let found = match heights(alloc, counts[place], lines) {
            Ok(found) => found,
            Err(fault) => return Err(fault),
        };
        second.push_reserved(found);
    }
    Ok(second)
}

// The second heights and the last line `end`.
#[tactic(auto, unfolding(crate::specs::MoveText::second_at))]
fn second(alloc: Global, counts: &[usize], lines: &mut Lines) -> Result<Vec<Vec<i64>>, TextFault>
    ensures { Gives (λ second. map heights_view second.items) result (text.second_at counts.now lines.old.end_line lines.old.rows) }
{
    let second = all_heights(alloc, counts, lines)?;
    end(lines)?;
    no_line(lines)?;
    Ok(second)
}

/// Reads a move file: a listing of version 1 through its `end`, for each support a line `heights`
/// with a height for each of its points, and `end`. Else the first faulty line and the kind of its
/// fault: those of a listing, where a header of version 2 is faulty too; `Count` for a line that
/// doesn't begin with `heights`, `Number` where a number of it is missing, spelled wrongly or too
/// many, `Range` where one is out of the limits of heights; `Missing` for a line that isn't there,
/// `Extra` for a last line that isn't `end` alone and for one behind it.
#[tactic(auto, unfolding(crate::specs::MoveText::move_of))]
pub fn read_move(alloc: Global, bytes: &[u8]) -> Result<MoveFile, TextFault>
    ensures { Gives move_view result (move_of bytes.now) }
{
    let mut first = Lines::new(bytes);
    header(&mut first)?;
    let mut lines = Lines::new(bytes);
    let listing = read_listing_lines(alloc, &mut lines)?;
    let Ok(counts) = point_counts(alloc, &listing.file) else {
        return Err(TextFault::OutOfMemory);
    };
    let second = second(alloc, counts.as_slice(), &mut lines)?;
    Ok(MoveFile { listing, second })
}

/// What `read_move` answers is in form: a file of version 1 that keeps its limits, cells of its
/// points, and a second height within the limits for each point.
pub fn read_move_is_formed()
    ensures valid { (bytes : List ℕ) (listed : Listed) (second : List (List ℤ)) → move_of bytes ≡ Ok (listed, second) → IsValidFile listed.0 }
    ensures version { (bytes : List ℕ) (listed : Listed) (second : List (List ℤ)) → move_of bytes ≡ Ok (listed, second) → listed.0.version ≡ version1 }
    ensures of_file { (bytes : List ℕ) (listed : Listed) (second : List (List ℤ)) → move_of bytes ≡ Ok (listed, second) → Each listed.1 (IsOfFile listed.0) }
    ensures heights { (bytes : List ℕ) (listed : Listed) (second : List (List ℤ)) → move_of bytes ≡ Ok (listed, second) → AreSecondHeights listed.0 second }
{}
