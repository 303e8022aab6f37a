// The text of a log, written.
ghost use Rattle.std.specs.Prelude.{◌≡◌, ◌++◌, List, [], ◌∷◌, flat_map, IfOk, OnOk};
ghost use Rattle.support_text.specs.Words.{text_of};
ghost use Rattle.path_log.specs.Writing.{node_words, nodes_lines, log_text};

use cayley::LiftFile;
use line_text::write_int;
use listing_text::{append_cells, write_positions, write_vector};
use path_trace::{Trace, TraceNode};
use std::alloc::Global;
use support_text::{append_problem, write_bytes, write_count};
use wide_int::OutOfMemory;

// Appends a node's line.
fn write_node(out: &mut Vec<u8>, node: &TraceNode) -> Result<(), OutOfMemory>
    ensures { OnOk result (out.new.items ≡ out.old.items ++ text_of (node_words node.now ∷ [])) }
{
    write_bytes(out, b"node")?;
    write_positions(out, node.cell.pairs())?;
    write_bytes(out, b" : ")?;
    write_int(out, node.scale)?;
    write_bytes(out, b" :")?;
    write_vector(out, node.inverse.as_slice())?;
    write_bytes(out, b"\n")
}

// Appends the lines of nodes.
fn write_nodes(out: &mut Vec<u8>, nodes: &[TraceNode]) -> Result<(), OutOfMemory>
    ensures { OnOk result (out.new.items ≡ out.old.items ++ flat_map (λ x. text_of (node_words x ∷ [])) nodes.now) }
{
    for node in nodes {
        write_node(out, node)?;
    }
    Ok(())
}

// Appends the line `log T` and a line for each node.
fn append_nodes(out: &mut Vec<u8>, nodes: &[TraceNode]) -> Result<(), OutOfMemory>
    ensures { OnOk result (out.new.items ≡ out.old.items ++ text_of (nodes_lines nodes.now)) }
{
    write_count(out, b"log", nodes.len())?;
    write_nodes(out, nodes)
}

// Appends a log.
fn append_log(out: &mut Vec<u8>, file: &LiftFile, trace: &Trace) -> Result<(), OutOfMemory>
    ensures { OnOk result (out.new.items ≡ out.old.items ++ log_text file.now trace.now.nodes.items trace.now.found.items) }
{
    append_problem(file, out)?;
    append_nodes(out, trace.nodes.as_slice())?;
    append_cells(out, trace.found.as_slice())
}

/// The text of a log: the file's canonical text, the line `log T`, a line for each node, the line
/// `cells K`, a line for each cell and the line `end`.
pub fn write_log(alloc: Global, file: &LiftFile, trace: &Trace) -> Result<Vec<u8>, OutOfMemory>
    ensures { IfOk result (λ text. text.items ≡ log_text file.now trace.now.nodes.items trace.now.found.items) }
{
    let mut text = Vec::new(alloc);
    append_log(&mut text, file, trace)?;
    Ok(text)
}
