use crate::{LogNode, read_log, write_log};
use cayley::FoundCell;
use listing_text::ListedCell;
use path_trace::{Trace, TraceNode};
use std::alloc::Global;
use std::test::Fail;
use support_text::TextFault;

// The line and the kind of a text's first fault, or 0 and 0 where it is a log.
fn judged(alloc: Global, text: &[u8]) -> Result<(u64, u8), Fail> {
    match read_log(alloc, text) {
        Ok(_) => Ok((0, 0)),
        Err(TextFault::Format(fault)) => Ok((fault.line, fault.kind)),
        Err(TextFault::OutOfMemory) => Err(Fail::from("out of memory")),
    }
}

#[test]
fn logs_and_their_first_faults(rt: HostRuntime) -> Result<(), Fail> {
    let table: [(&[u8], (u64, u8)); 24] = [
        (
            b"mixedcells 1\ndim 1\nsupport 2\n0 : 0\n2 : 1\nend\n",
            (7, 8),
        ),
        (
            b"mixedcells 1\ndim 1\nsupport 2\n0 : 0\n2 : 1\nend\nlog 3\nnode 3 4 : 2 : 1\nnode 1 4 : 2 : 1\nnode 1 2 : 2 : 1\ncells 1\ncell 1 2 : -1 / 2\nend\n",
            (0, 0),
        ),
        (
            b"mixedcells 1\ndim 1\nsupport 2\n0 : 0\n2 : 1\nend\nlog 0\ncells 1\ncell 1 2 : -1 / 2\nend\n",
            (7, 3),
        ),
        (
            b"mixedcells 1\ndim 1\nsupport 2\n0 : 0\n2 : 1\nend\nlog\ncells 1\ncell 1 2 : -1 / 2\nend\n",
            (7, 3),
        ),
        (
            b"mixedcells 1\ndim 1\nsupport 2\n0 : 0\n2 : 1\nend\nlogs 1\ncells 1\ncell 1 2 : -1 / 2\nend\n",
            (7, 3),
        ),
        (
            b"mixedcells 1\ndim 1\nsupport 2\n0 : 0\n2 : 1\nend\nlog 4294967296\n",
            (7, 3),
        ),
        (
            b"mixedcells 1\ndim 1\nsupport 2\n0 : 0\n2 : 1\nend\nlog 1 1\n",
            (7, 3),
        ),
        (
            b"mixedcells 1\ndim 1\nsupport 2\n0 : 0\n2 : 1\nend\ncells 1\ncell 1 2 : -1 / 2\nend\n",
            (7, 3),
        ),
        (
            b"mixedcells 1\ndim 1\nsupport 2\n0 : 0\n2 : 1\nend\nlog 1\ncells 1\ncell 1 2 : -1 / 2\nend\n",
            (8, 3),
        ),
        (
            b"mixedcells 1\ndim 1\nsupport 2\n0 : 0\n2 : 1\nend\nlog 1\nnode 3 4 : 2 : 1\nnode 1 2 : 2 : 1\n",
            (9, 3),
        ),
        (
            b"mixedcells 1\ndim 1\nsupport 2\n0 : 0\n2 : 1\nend\nlog 3\nnode 3 4 : 2 : 1\n",
            (9, 8),
        ),
        (
            b"mixedcells 1\ndim 1\nsupport 2\n0 : 0\n2 : 1\nend\nlog 1\nnode 3 4 2 : 1\n",
            (8, 4),
        ),
        (
            b"mixedcells 1\ndim 1\nsupport 2\n0 : 0\n2 : 1\nend\nlog 1\nnode 3 4 : 2 1\n",
            (8, 4),
        ),
        (
            b"mixedcells 1\ndim 1\nsupport 2\n0 : 0\n2 : 1\nend\nlog 1\nnode 3 4 : 2 :\n",
            (8, 4),
        ),
        (
            b"mixedcells 1\ndim 1\nsupport 2\n0 : 0\n2 : 1\nend\nlog 1\nnode 3 4 : 2 : 1 1\n",
            (8, 4),
        ),
        (
            b"mixedcells 1\ndim 1\nsupport 2\n0 : 0\n2 : 1\nend\nlog 1\nnode 3 5 : 2 : 1\n",
            (8, 5),
        ),
        (
            b"mixedcells 1\ndim 1\nsupport 2\n0 : 0\n2 : 1\nend\nlog 1\nnode 4 4 : x : 1\n",
            (8, 5),
        ),
        (
            b"mixedcells 1\ndim 1\nsupport 2\n0 : 0\n2 : 1\nend\nlog 1\nnode 0 4 : 2 : 1\n",
            (8, 5),
        ),
        (
            b"mixedcells 1\ndim 1\nsupport 2\n0 : 0\n2 : 1\nend\nlog 1\nnode 3 4 : 0 : 1\n",
            (8, 5),
        ),
        (
            b"mixedcells 1\ndim 1\nsupport 2\n0 : 0\n2 : 1\nend\nlog 1\nnode 3 4 : 170141183460469231731687303715884105728 : 1\n",
            (8, 5),
        ),
        (
            b"mixedcells 1\ndim 1\nsupport 2\n0 : 0\n2 : 1\nend\nlog 1\nnode 3 4 : 170141183460469231731687303715884105727 : -170141183460469231731687303715884105727\ncells 1\ncell 1 2 : -1 / 2\nend\n",
            (0, 0),
        ),
        (
            b"mixedcells 1\ndim 1\nsupport 2\n0 : 0\n2 : 1\nend\nlog 1\nnode 3 4 : 2 : -170141183460469231731687303715884105728\ncells 1\ncell 1 2 : -1 / 2\nend\n",
            (8, 5),
        ),
        (
            b"mixedcells 1\ndim 1\nsupport 2\n0 : 0\n2 : 1\nend\nlog 1\nnode 3 4 : 2 : 1\ncells 1\ncell 1 3 : -1 / 2\nend\n",
            (10, 5),
        ),
        (
            b"mixedcells 1\ndim 1\nsupport 2\n0 : 0\n2 : 1\nend\nlog 3\nnode 3 4 : 2 : 1\nnode 1 4 : 2 : 1\nnode 1 2 : 2 : 1\ncells 1\ncell 1 2 : -1 / 2\nend\nmore\n",
            (14, 9),
        ),
    ];
    for (text, fault) in table {
        assert_eq!(rt; judged(rt.alloc(), text)?, fault);
    }
    Ok(())
}

// The nodes without the numbers of their lines.
fn nodes_of(alloc: Global, noted: Vec<LogNode>) -> Result<Vec<TraceNode>, Fail> {
    let mut nodes = Vec::new(alloc);
    for node in noted {
        nodes.push(node.node)?;
    }
    Ok(nodes)
}

// The cells without the numbers of their lines.
fn found_of(alloc: Global, listed: Vec<ListedCell>) -> Result<Vec<FoundCell>, Fail> {
    let mut found = Vec::new(alloc);
    for cell in listed {
        found.push(FoundCell {
            cell: cell.cell,
            normal: cell.normal,
        })?;
    }
    Ok(found)
}

#[test]
fn odd_spelling_is_rewritten(rt: HostRuntime) -> Result<(), Fail> {
    let odd =
        b"mixedcells 1\ndim 1\nsupport 2\n0:0\n2:1\nend\n\nlog 03 # three\nnode 3 4:2:1\n\nnode +1 4:02:+1\nnode 1 2:2:1\ncells 01\ncell 1 02:-1/2\nend";
    let Ok(log) = read_log(rt.alloc(), odd) else {
        return Err(Fail::from("the text is no log"));
    };
    let file = log.file;
    let noted = log.nodes;
    let part = log.part;
    assert_eq!(rt; part.cells_line, 13);
    assert_eq!(rt; part.end_line, 15);
    let listed = part.cells;
    let trace = Trace {
        nodes: nodes_of(rt.alloc(), noted)?,
        found: found_of(rt.alloc(), listed)?,
    };
    let text = write_log(rt.alloc(), &file, &trace)?;
    assert_eq!(rt;
        text.as_slice(),
        b"mixedcells 1\ndim 1\nsupport 2\n0 : 0\n2 : 1\nend\nlog 3\nnode 3 4 : 2 : 1\nnode 1 4 : 2 : 1\nnode 1 2 : 2 : 1\ncells 1\ncell 1 2 : -1 / 2\nend\n".as_slice()
    );
    Ok(())
}
