// The node lines of a log, read line by line.
ghost use Rattle.std.specs.Prelude.{◌≡◌, ◌≤◌, ◌<◌, [], ℕ, length, All, IfOk};
ghost use Rattle.support_text.specs.Faults.{Gives, series};
ghost use Rattle.support_text.specs.Words as spec;
ghost use Rattle.support_text.specs.Words.{words};
ghost use Rattle.path_log.specs.LogText as log;
ghost use Rattle.path_log.specs.LogText.{node_at};

use crate::log::LogNode;
use line_text::{Line, Lines};
use listing_text::{read_positions, read_vector};
use path_trace::TraceNode;
use std::alloc::Global;
use support_text::{Kind, TextFault, next_line, nothing_more, number, word};

const LARGEST: i128 = i128::MAX;

const NODES: i128 = 4_294_967_295;

// `log T`
#[tactic(auto, unfolding(support_text::specs::ProblemText::counting_line))]
fn log_line(line: &mut Line) -> Result<usize, TextFault>
    ensures { Gives (λ n. n) result (log.log_line line.old.number (words line.old)) }
{
    word(line, b"log", Kind::Count)?;
    let count = number(line, 1, NODES, Kind::Count, Kind::Count)?;
    nothing_more(line, Kind::Count)?;
    Ok(count as usize)
}

/// The line `log T`.
#[tactic(auto, unfolding(support_text::specs::Words::next_line))]
pub fn node_count(lines: &mut Lines) -> Result<usize, TextFault>
    ensures reading { Gives (λ n. (n, lines.new.rows)) result (spec.next_line log.log_line lines.old.end_line lines.old.rows) }
    ensures end_line { lines.new.end_line ≡ lines.old.end_line }
{
    let mut line = next_line(lines)?;
    log_line(&mut line)
}

// A node line.
#[tactic(auto, unfolding(crate::specs::LogText::node_line))]
fn node_line(alloc: Global, spans: &[usize], line: &mut Line) -> Result<LogNode, TextFault>
    requires least { 1 ≤ length spans.now }
    requires greatest { length spans.now ≤ 16 }
    requires spans { All (λ m. (1 ≤ m) × (m ≤ 4294967295)) spans.now }
    ensures { Gives (λ node. node) result (log.node_line spans.now line.old.number (words line.old)) }
{
    word(line, b"node", Kind::Count)?;
    let cell = read_positions(alloc, spans, line)?;
    word(line, b":", Kind::Number)?;
    let scale = number(line, 1, LARGEST, Kind::Number, Kind::Range)?;
    word(line, b":", Kind::Number)?;
    let inverse = read_vector(alloc, spans.len() * spans.len(), line)?;
    nothing_more(line, Kind::Number)?;
    let line = line.number();
    Ok(LogNode {
        line,
        node: TraceNode {
            cell,
            scale,
            inverse,
        },
    })
}

#[tactic(auto, unfolding(support_text::specs::Words::next_line))]
fn node(alloc: Global, spans: &[usize], lines: &mut Lines) -> Result<LogNode, TextFault>
    requires least { 1 ≤ length spans.now }
    requires greatest { length spans.now ≤ 16 }
    requires spans { All (λ m. (1 ≤ m) × (m ≤ 4294967295)) spans.now }
    ensures reading { Gives (λ node. (node, lines.new.rows)) result (spec.next_line (log.node_line spans.now) lines.old.end_line lines.old.rows) }
    ensures end_line { lines.new.end_line ≡ lines.old.end_line }
{
    let mut line = next_line(lines)?;
    node_line(alloc, spans, &mut line)
}

/// So many node lines, where the supports have so many points on the path.
pub fn node_lines(
    alloc: Global,
    spans: &[usize],
    count: usize,
    lines: &mut Lines,
) -> Result<Vec<LogNode>, TextFault>
    requires least { 1 ≤ length spans.now }
    requires greatest { length spans.now ≤ 16 }
    requires spans { All (λ m. (1 ≤ m) × (m ≤ 4294967295)) spans.now }
    ensures reading { Gives (λ nodes. (nodes.items, lines.new.rows)) result (series count (node_at spans.now lines.old.end_line) [] lines.old.rows) }
    ensures end_line { lines.new.end_line ≡ lines.old.end_line }
{
    let mut nodes = Vec::new(alloc);
    for _turn in 0..count {
        if nodes.reserve(1).is_err() {
            return Err(TextFault::OutOfMemory);
        }
        let found = match node(alloc, spans, lines) {
            Ok(found) => found,
            Err(fault) => return Err(fault),
        };
        nodes.push_reserved(found);
    }
    Ok(nodes)
}
