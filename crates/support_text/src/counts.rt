// The lines that hold a word and a count, and the header.
ghost use Rattle.std.specs.Prelude.{◌≡◌, ◌≤◌, ◌≢◌, pos, ◌≤ℤ◌, IfOk, IfErr};
ghost use Rattle.cayley.specs.Stored.{version_of};
ghost use Rattle.support_text.specs.Faults.{Gives};
ghost use Rattle.support_text.specs.Words as spec;
ghost use Rattle.support_text.specs.Words.{words};
ghost use Rattle.support_text.specs.ProblemText as format;

use crate::fault::{Kind, TextFault, fault_at};
use crate::lines::{next_line, nothing_more, number, word};
use cayley::Version;
use line_text::{Line, Lines};

const DIMENSIONS: i128 = cayley::DIMENSIONS as i128;

const POINTS: i128 = cayley::POINTS as i128;

// `1` or `2`
#[tactic(auto, unfolding(crate::specs::ProblemText::version_word))]
fn version_word(line: &mut Line) -> Result<Version, TextFault>
    ensures reading { Gives (λ version. (version_of version, words line.new)) result (format.version_word line.old.number (words line.old)) }
    ensures number { line.new.number ≡ line.old.number }
    ensures memory { IfErr result (λ e. e ≢ TextFault.OutOfMemory) }
{
    let Some(token) = line.next_token() else {
        return Err(fault_at(line.number(), Kind::Header));
    };
    if token.text == b"1".as_slice() {
        return Ok(Version::First);
    }
    if token.text == b"2".as_slice() {
        return Ok(Version::Second);
    }
    Err(fault_at(line.number(), Kind::Header))
}

// `mixedcells 1` or `mixedcells 2`
#[tactic(auto, unfolding(crate::specs::ProblemText::header_line))]
fn header_line(line: &mut Line) -> Result<Version, TextFault>
    ensures reading { Gives version_of result (format.header_line line.old.number (words line.old)) }
    ensures memory { IfErr result (λ e. e ≢ TextFault.OutOfMemory) }
{
    word(line, b"mixedcells", Kind::Header)?;
    let version = version_word(line)?;
    nothing_more(line, Kind::Header)?;
    Ok(version)
}

/// The first line, which tells the version.
#[tactic(auto, unfolding(crate::specs::Words::next_line))]
pub fn header(lines: &mut Lines) -> Result<Version, TextFault>
    ensures reading { Gives (λ version. (version_of version, lines.new.rows)) result (spec.next_line format.header_line lines.old.end_line lines.old.rows) }
    ensures end_line { lines.new.end_line ≡ lines.old.end_line }
    ensures memory { IfErr result (λ e. e ≢ TextFault.OutOfMemory) }
{
    let mut line = next_line(lines)?;
    header_line(&mut line)
}

// A word and a number from 1 to a limit.
#[tactic(auto, unfolding(crate::specs::ProblemText::counting_line))]
fn counting_line(line: &mut Line, text: &[u8], limit: i128, kind: Kind) -> Result<usize, TextFault>
    requires least { pos 1 ≤ℤ limit }
    requires greatest { limit ≤ℤ pos 1000 }
    ensures reading { Gives (λ n. n) result (format.counting_line text.now limit kind line.old.number (words line.old)) }
    ensures least { IfOk result (λ n. 1 ≤ n) }
    ensures memory { IfErr result (λ e. e ≢ TextFault.OutOfMemory) }
{
    word(line, text, kind)?;
    let count = number(line, 1, limit, kind, kind)?;
    nothing_more(line, kind)?;
    Ok(count as usize)
}

/// The line of the dimension.
#[tactic(auto, unfolding(crate::specs::Words::next_line))]
pub fn dim(lines: &mut Lines) -> Result<usize, TextFault>
    ensures reading { Gives (λ n. (n, lines.new.rows)) result (spec.next_line format.dim_line lines.old.end_line lines.old.rows) }
    ensures least { IfOk result (λ n. 1 ≤ n) }
    ensures end_line { lines.new.end_line ≡ lines.old.end_line }
    ensures memory { IfErr result (λ e. e ≢ TextFault.OutOfMemory) }
{
    let mut line = next_line(lines)?;
    counting_line(&mut line, b"dim", DIMENSIONS, Kind::Dim)
}

/// The line of a support's number of points.
#[tactic(auto, unfolding(crate::specs::Words::next_line))]
pub fn count(lines: &mut Lines) -> Result<usize, TextFault>
    ensures reading { Gives (λ n. (n, lines.new.rows)) result (spec.next_line format.count_line lines.old.end_line lines.old.rows) }
    ensures end_line { lines.new.end_line ≡ lines.old.end_line }
    ensures memory { IfErr result (λ e. e ≢ TextFault.OutOfMemory) }
{
    let mut line = next_line(lines)?;
    counting_line(&mut line, b"support", POINTS, Kind::Count)
}
