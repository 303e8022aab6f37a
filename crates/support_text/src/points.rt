// Supports of points, read line by line.
ghost use Rattle.std.specs.Prelude.{◌≡◌, map, []};
ghost use Rattle.cayley.specs.Stored.{file_point};
ghost use Rattle.support_text.specs.Faults.{Gives, series};
ghost use Rattle.support_text.specs.Words as spec;
ghost use Rattle.support_text.specs.Words.{words};
ghost use Rattle.support_text.specs.ProblemText as format;
ghost use Rattle.support_text.specs.ProblemText.{point_at};
ghost use Rattle.support_text.specs.Stored.{support_view};

use crate::counts::count;
use crate::fault::{Kind, TextFault};
use crate::gathered::Gathered;
use crate::lines::{next_line, nothing_more, number, word};
use cayley::FilePoint;
use int_vectors::IntVec;
use line_text::{Line, Lines};
use std::alloc::Global;

const COORDINATE: i128 = cayley::COORDINATE as i128;

const HEIGHT: i128 = cayley::HEIGHT as i128;

// `n` coordinates.
fn coordinates(alloc: Global, n: usize, line: &mut Line) -> Result<IntVec, TextFault>
    ensures reading { Gives (λ xs. (xs, words line.new)) result (format.coordinates n line.old.number (words line.old)) }
    ensures number { line.new.number ≡ line.old.number }
{
    let mut entries = Vec::new(alloc);
    for _turn in 0..n {
        if entries.reserve(1).is_err() {
            return Err(TextFault::OutOfMemory);
        }
        let entry = match number(line, -COORDINATE, COORDINATE, Kind::Number, Kind::Range) {
            Ok(entry) => entry,
            Err(fault) => return Err(fault),
        };
        entries.push_reserved(entry);
    }
    Ok(IntVec::from_vec(entries))
}

// A point line, whatever the earlier points are.
#[tactic(auto, unfolding(crate::specs::ProblemText::point_line))]
fn point_line(alloc: Global, n: usize, line: &mut Line) -> Result<FilePoint, TextFault>
    ensures reading { Gives file_point result (format.point_line n [] line.old.number (words line.old)) }
    ensures number { line.new.number ≡ line.old.number }
{
    let coords = coordinates(alloc, n, line)?;
    word(line, b":", Kind::Number)?;
    let height = number(line, -HEIGHT, HEIGHT, Kind::Number, Kind::Range)?;
    nothing_more(line, Kind::Number)?;
    Ok(FilePoint {
        coords,
        height: height as i64,
    })
}

// The next point line, read in view of the earlier points.
fn point(alloc: Global, n: usize, points: &mut Gathered, lines: &mut Lines) -> Result<(), TextFault>
    ensures reading { Gives (λ done. (points.new, lines.new.rows)) result (series 1 (point_at n lines.old.end_line) points.old lines.old.rows) }
    ensures end_line { lines.new.end_line ≡ lines.old.end_line }
{
    let mut line = next_line(lines)?;
    let point = point_line(alloc, n, &mut line)?;
    points.add(alloc, line.number(), point)
}

fn points(
    alloc: Global,
    n: usize,
    count: usize,
    lines: &mut Lines,
) -> Result<Vec<FilePoint>, TextFault>
    ensures reading { Gives (λ points. (map file_point points.items, lines.new.rows)) result (series count (point_at n lines.old.end_line) [] lines.old.rows) }
    ensures end_line { lines.new.end_line ≡ lines.old.end_line }
{
    let mut points = Gathered::new(alloc);
    for _turn in 0..count {
        point(alloc, n, &mut points, lines)?;
    }
    Ok(points.into_points())
}

#[tactic(auto, unfolding(crate::specs::ProblemText::support))]
fn support(alloc: Global, n: usize, lines: &mut Lines) -> Result<Vec<FilePoint>, TextFault>
    ensures reading { Gives (λ points. (map file_point points.items, lines.new.rows)) result (format.support n lines.old.end_line lines.old.rows) }
    ensures end_line { lines.new.end_line ≡ lines.old.end_line }
{
    let count = count(lines)?;
    points(alloc, n, count, lines)
}

/// The `n` supports.
pub fn supports(
    alloc: Global,
    n: usize,
    lines: &mut Lines,
) -> Result<Vec<Vec<FilePoint>>, TextFault>
    ensures reading { Gives (λ supports. (map support_view supports.items, lines.new.rows)) result (format.supports n lines.old.end_line lines.old.rows) }
    ensures end_line { lines.new.end_line ≡ lines.old.end_line }
{
    let mut supports = Vec::new(alloc);
    for _turn in 0..n {
        if supports.reserve(1).is_err() {
            return Err(TextFault::OutOfMemory);
        }
        let support = match support(alloc, n, lines) {
            Ok(support) => support,
            Err(fault) => return Err(fault),
        };
        supports.push_reserved(support);
    }
    Ok(supports)
}
