// What stands behind the last support: start lines and `end`.
ghost use Rattle.std.specs.Prelude.{◌≡◌, ◌≢◌, ◌≤◌, ◌<◌, ◌-◌, ◌^◌, ◌∷◌, [], ℤ, pos, ◌≤ℤ◌, map, codes, false, IfErr};
ghost use Rattle.std.specs.Option.{option_map};
ghost use Rattle.support_text.specs.Faults.{Gives, series};
ghost use Rattle.support_text.specs.Words as spec;
ghost use Rattle.support_text.specs.Words.{words};
ghost use Rattle.support_text.specs.ProblemText as format;
ghost use Rattle.support_text.specs.ProblemText.{opening, start_at};
ghost use Rattle.support_text.specs.Stored.{heights_view, starts_view};

use crate::fault::{Kind, TextFault, fault_at};
use crate::lines::{next_line, nothing_more, number, word};
use crate::opening::Opening;
use line_text::{Line, Lines};
use std::alloc::Global;

// The greatest start height, which is the greatest height.
const START: i128 = cayley::HEIGHT as i128;

// Takes the first word of a line.
fn first_word(line: &mut Line) -> Opening
    ensures opens { (result, words line.new) ≡ opening (words line.old) }
    ensures number { line.new.number ≡ line.old.number }
{
    let Some(token) = line.next_token() else {
        return Opening::Other;
    };
    if token.text == b"end".as_slice() {
        Opening::End
    } else if token.text == b"start".as_slice() {
        Opening::Start
    } else {
        Opening::Other
    }
}

// The start heights behind the word `start`.
fn height_list(alloc: Global, count: usize, line: &mut Line) -> Result<Vec<i64>, TextFault>
    ensures reading { Gives (λ heights. (heights.items, words line.new)) result (series count (format.start_height line.old.number) [] (words line.old)) }
    ensures number { line.new.number ≡ line.old.number }
{
    let mut heights = Vec::new(alloc);
    for _turn in 0..count {
        if heights.reserve(1).is_err() {
            return Err(TextFault::OutOfMemory);
        }
        let height = match number(line, 1, START, Kind::Start, Kind::Start) {
            Ok(height) => height,
            Err(fault) => return Err(fault),
        };
        heights.push_reserved(height as i64);
    }
    Ok(heights)
}

#[tactic(auto, unfolding(crate::specs::ProblemText::start_heights))]
fn start_heights(alloc: Global, n: usize, line: &mut Line) -> Result<Vec<i64>, TextFault>
    requires { 1 ≤ n }
    ensures { Gives (λ heights. heights.items) result (format.start_heights n line.old.number (words line.old)) }
{
    let heights = height_list(alloc, n - 1, line)?;
    nothing_more(line, Kind::Start)?;
    Ok(heights)
}

#[tactic(auto, unfolding(crate::specs::ProblemText::start_line))]
fn start_line(alloc: Global, n: usize, line: &mut Line) -> Result<Vec<i64>, TextFault>
    requires { 1 ≤ n }
    ensures { Gives (λ heights. heights.items) result (format.start_line n line.old.number (words line.old)) }
{
    word(line, b"start", Kind::Start)?;
    start_heights(alloc, n, line)
}

#[tactic(auto, unfolding(crate::specs::Words::next_line))]
fn start(alloc: Global, n: usize, lines: &mut Lines) -> Result<Vec<i64>, TextFault>
    requires { 1 ≤ n }
    ensures reading { Gives (λ heights. (heights.items, lines.new.rows)) result (spec.next_line (format.start_line n) lines.old.end_line lines.old.rows) }
    ensures end_line { lines.new.end_line ≡ lines.old.end_line }
{
    let mut line = next_line(lines)?;
    start_line(alloc, n, &mut line)
}

// The start lines behind the first one.
fn starts(
    alloc: Global,
    n: usize,
    first: Vec<i64>,
    lines: &mut Lines,
) -> Result<Vec<Vec<i64>>, TextFault>
    requires { 1 ≤ n }
    ensures reading { Gives (λ starts. (map heights_view starts.items, lines.new.rows)) result (series (n - 1) (start_at n lines.old.end_line) (first.items ∷ []) lines.old.rows) }
    ensures end_line { lines.new.end_line ≡ lines.old.end_line }
{
    let mut starts = Vec::new(alloc);
    if starts.reserve(1).is_err() {
        return Err(TextFault::OutOfMemory);
    }
    starts.push_reserved(first);
    for _turn in 1..n {
        if starts.reserve(1).is_err() {
            return Err(TextFault::OutOfMemory);
        }
        let heights = match start(alloc, n, lines) {
            Ok(heights) => heights,
            Err(fault) => return Err(fault),
        };
        starts.push_reserved(heights);
    }
    Ok(starts)
}

/// The word `end` alone in this line.
#[tactic(auto, unfolding(crate::specs::ProblemText::end_line))]
pub fn end_line(line: &mut Line) -> Result<(), TextFault>
    ensures reading { Gives (λ done. tt) result (format.end_line line.old.number (words line.old)) }
    ensures memory { IfErr result (λ e. e ≢ TextFault.OutOfMemory) }
{
    word(line, b"end", Kind::Extra)?;
    nothing_more(line, Kind::Extra)
}

/// The line `end`.
#[tactic(auto, unfolding(crate::specs::Words::next_line))]
pub fn end(lines: &mut Lines) -> Result<(), TextFault>
    ensures reading { Gives (λ done. (tt, lines.new.rows)) result (spec.next_line format.end_line lines.old.end_line lines.old.rows) }
    ensures end_line { lines.new.end_line ≡ lines.old.end_line }
    ensures memory { IfErr result (λ e. e ≢ TextFault.OutOfMemory) }
{
    let mut line = next_line(lines)?;
    end_line(&mut line)
}

// The start lines and `end`, behind the first word `start`.
#[tactic(auto, unfolding(crate::specs::ProblemText::starts_and_end))]
fn starts_and_end(
    alloc: Global,
    n: usize,
    line: &mut Line,
    lines: &mut Lines,
) -> Result<Vec<Vec<i64>>, TextFault>
    requires { 1 ≤ n }
    ensures reading { Gives (λ starts. (Some (map heights_view starts.items), lines.new.rows)) result
        (format.starts_and_end n lines.old.end_line line.old.number (words line.old) lines.old.rows) }
    ensures end_line { lines.new.end_line ≡ lines.old.end_line }
{
    let first = start_heights(alloc, n, line)?;
    let starts = starts(alloc, n, first, lines)?;
    end(lines)?;
    Ok(starts)
}

/// The start lines, if there are any, and `end`.
#[tactic(auto, unfolding(crate::specs::ProblemText::ending, crate::specs::ProblemText::ending_of, crate::specs::ProblemText::end_alone))]
pub fn ending(
    alloc: Global,
    n: usize,
    lines: &mut Lines,
) -> Result<Option<Vec<Vec<i64>>>, TextFault>
    requires { 1 ≤ n }
    ensures reading { Gives (λ starts. (starts_view starts, lines.new.rows)) result (format.ending n lines.old.end_line lines.old.rows) }
    ensures end_line { lines.new.end_line ≡ lines.old.end_line }
{
    let mut line = next_line(lines)?;
    match first_word(&mut line) {
        Opening::End => {
            nothing_more(&mut line, Kind::Extra)?;
            Ok(None)
        }
        Opening::Start => {
            let starts = starts_and_end(alloc, n, &mut line, lines)?;
            Ok(Some(starts))
        }
        Opening::Other => Err(fault_at(line.number(), Kind::Start)),
    }
}
