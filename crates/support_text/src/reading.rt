// Problem files, read from their bytes.
ghost use Rattle.std.specs.Prelude.{◌≡◌, ◌≢◌, IfErr};
ghost use Rattle.support_text.specs.Faults.{Gives};
ghost use Rattle.support_text.specs.ProblemText as format;
ghost use Rattle.support_text.specs.ProblemText.{problem_at, problem_of};

use crate::counts::{dim, header};
use crate::endings::ending;
use crate::fault::{Kind, TextFault, fault_at};
use crate::points::supports;
use cayley::LiftFile;
use line_text::Lines;
use std::alloc::Global;

/// Reads a problem file up to and with its line `end`. What follows is left in `lines`. After a fault
/// `lines` stands behind the faulty line.
#[tactic(auto, unfolding(crate::specs::ProblemText::problem_at))]
pub fn read_problem_lines(alloc: Global, lines: &mut Lines) -> Result<LiftFile, TextFault>
    ensures reading { Gives (λ file. (file, lines.new.rows)) result (problem_at lines.old.end_line lines.old.rows) }
    ensures end_line { lines.new.end_line ≡ lines.old.end_line }
{
    let version = header(lines)?;
    let n = dim(lines)?;
    let supports = supports(alloc, n, lines)?;
    let starts = ending(alloc, n, lines)?;
    Ok(LiftFile::from_parts(version, n, supports, starts))
}

/// No line with words may be left.
#[tactic(auto, unfolding(crate::specs::ProblemText::no_line))]
pub fn no_line(lines: &mut Lines) -> Result<(), TextFault>
    ensures reading { Gives (λ done. tt) result (format.no_line lines.old.rows) }
    ensures memory { IfErr result (λ e. e ≢ TextFault.OutOfMemory) }
{
    match lines.next_line() {
        None => Ok(()),
        Some(line) => Err(fault_at(line.number(), Kind::Extra)),
    }
}

/// Reads a problem file: the file where the bytes are one, and else the first faulty line and the
/// kind of its fault.
#[tactic(auto, unfolding(crate::specs::ProblemText::problem_of))]
pub fn read_problem(alloc: Global, bytes: &[u8]) -> Result<LiftFile, TextFault>
    ensures { Gives (λ file. file) result (problem_of bytes.now) }
{
    let mut lines = Lines::new(bytes);
    let file = read_problem_lines(alloc, &mut lines)?;
    no_line(&mut lines)?;
    Ok(file)
}
