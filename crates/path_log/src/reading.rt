// Logs, read from their bytes.
ghost use Rattle.std.specs.Prelude.{◌≡◌, ◌≤◌, ◌+◌, ℕ, List, length, map, All, IfOk, Ok};
ghost use Rattle.cayley.specs.Files.{File};
ghost use Rattle.cayley.specs.Valid.{IsValidFile};
ghost use Rattle.support_text.specs.Faults.{Gives};
ghost use Rattle.listing_text.specs.ListingText.{counts_of};
ghost use Rattle.listing_text.specs.Forms.{IsFormed};
ghost use Rattle.path_log.specs.LogText.{Log, spans_of, log_of, log_in};
ghost use Rattle.path_log.specs.Forms.{IsFormedNode, IsFormedLog, MeansLog};
ghost use Rattle.path_log.specs.Writing.{log_text};
ghost use Rattle.int_vectors.specs.Vectors.{Each};

use crate::log::PathLog;
use crate::nodes::{node_count, node_lines};
use cayley::LiftFile;
use line_text::Lines;
use listing_text::{point_counts, read_cells};
use path_trace::Trace;
use std::alloc::Global;
use support_text::{TextFault, no_line, read_problem_lines};
use wide_int::OutOfMemory;

// Each number and so many more.
fn raised(alloc: Global, counts: &[usize], more: usize) -> Result<Vec<usize>, OutOfMemory>
    requires counts { All (λ m. (1 ≤ m) × (m ≤ 1000)) counts.now }
    requires more { more ≤ 17 }
    ensures value { IfOk result (λ spans. spans.items ≡ map (λ m. m + more) counts.now) }
{
    let mut spans = Vec::new(alloc);
    for count in counts {
        if spans.reserve(1).is_err() {
            return Err(OutOfMemory);
        }
        spans.push_reserved(*count + more);
    }
    Ok(spans)
}

// How many points each support has on the path of the file.
fn spans(alloc: Global, file: &LiftFile) -> Result<Vec<usize>, OutOfMemory>
    ensures value { IfOk result (λ spans. spans.items ≡ spans_of file.now) }
    ensures least { IfOk result (λ spans. 1 ≤ length spans.items) }
    ensures greatest { IfOk result (λ spans. length spans.items ≤ 16) }
    ensures within { IfOk result (λ spans. All (λ m. (1 ≤ m) × (m ≤ 4294967295)) spans.items) }
{
    let counts = point_counts(alloc, file)?;
    raised(alloc, counts.as_slice(), file.dim() + 1)
}

/// Reads a log: the file, the node lines and the cell lines where the bytes are one, and else the
/// first faulty line and the kind of its fault. A log is right in form without its nodes being a path
/// tree or its cells being mixed cells.
#[tactic(auto, unfolding(crate::specs::LogText::log_of))]
pub fn read_log(alloc: Global, bytes: &[u8]) -> Result<PathLog, TextFault>
    ensures { Gives log_in result (log_of bytes.now) }
{
    let mut lines = Lines::new(bytes);
    let file = read_problem_lines(alloc, &mut lines)?;
    let count = node_count(&mut lines)?;
    let Ok(spans) = spans(alloc, &file) else {
        return Err(TextFault::OutOfMemory);
    };
    let nodes = node_lines(alloc, spans.as_slice(), count, &mut lines)?;
    let part = read_cells(alloc, &mut lines, &file)?;
    no_line(&mut lines)?;
    Ok(PathLog { file, nodes, part })
}

/// What `write_log` writes of a file, from 1 to 4,294,967,295 nodes of its path and up to
/// 4,294,967,295 cells of its points is read as this file, these nodes and these cells.
pub fn written_log_reads_back(file: &LiftFile, trace: &Trace)
    ensures { Each trace.now.nodes.items (IsFormedNode (spans_of file.now)) → Each trace.now.found.items (IsFormed (counts_of file.now))
        → 1 ≤ length trace.now.nodes.items → length trace.now.nodes.items ≤ 4294967295 → length trace.now.found.items ≤ 4294967295
        → MeansLog (log_text file.now trace.now.nodes.items trace.now.found.items) file.now trace.now.nodes.items trace.now.found.items }
{
    let _dimension = file.dim();
}

/// What `read_log` answers is in form: a file that keeps its limits, at least one node, and nodes and
/// cells of its points, each with as many numbers as the dimension asks for.
pub fn read_log_is_formed()
    ensures { (bytes : List ℕ) (log : Log) → log_of bytes ≡ Ok log → IsFormedLog log }
{}
