use crate::{read_cells, read_listing, write_listing};
use cayley::FoundCell;
use line_text::Lines;
use std::alloc::Global;
use std::test::Fail;
use support_text::{TextFault, read_problem_lines};

// The line and the kind of a text's first fault, or 0 and 0 where it is a listing.
fn judged(alloc: Global, text: &[u8]) -> Result<(u64, u8), Fail> {
    match read_listing(alloc, text) {
        Ok(_) => Ok((0, 0)),
        Err(TextFault::Format(fault)) => Ok((fault.line, fault.kind)),
        Err(TextFault::OutOfMemory) => Err(Fail::from("out of memory")),
    }
}

#[test]
fn listings_and_their_first_faults(rt: HostRuntime) -> Result<(), Fail> {
    let table: [(&[u8], (u64, u8)); 20] = [
        (b"", (1, 8)),
        (
            b"mixedcells 1\ndim 1\nsupport 2\n0 : 0\n2 : 1\nend\n",
            (7, 8),
        ),
        (
            b"mixedcells 1\ndim 1\nsupport 2\n0 : 0\n2 : 1\nend\ncells 1\ncell 1 2 : -1 / 2\nend\n",
            (0, 0),
        ),
        (
            b"mixedcells 1\ndim 1\nsupport 2\n0 : 0\n2 : 1\nend\ncells 0\nend\n",
            (0, 0),
        ),
        (
            b"mixedcells 1\ndim 1\nsupport 2\n0 : 0\n2 : 1\nend\ncells 4294967296\n",
            (7, 3),
        ),
        (
            b"mixedcells 1\ndim 1\nsupport 2\n0 : 0\n2 : 1\nend\ncells\n",
            (7, 3),
        ),
        (
            b"mixedcells 1\ndim 1\nsupport 2\n0 : 0\n2 : 1\nend\ncells 1\nend\n",
            (8, 3),
        ),
        (
            b"mixedcells 1\ndim 1\nsupport 2\n0 : 0\n2 : 1\nend\ncells 2\ncell 1 2 : -1 / 2\nend\n",
            (9, 3),
        ),
        (
            b"mixedcells 1\ndim 1\nsupport 2\n0 : 0\n2 : 1\nend\ncells 1\ncell 1 2 : -1 / 2\n",
            (9, 8),
        ),
        (
            b"mixedcells 1\ndim 1\nsupport 2\n0 : 0\n2 : 1\nend\ncells 1\ncell 1 2 : -1 2\nend\n",
            (8, 4),
        ),
        (
            b"mixedcells 1\ndim 1\nsupport 2\n0 : 0\n2 : 1\nend\ncells 1\ncell 1 2 : -1 / 2 3\nend\n",
            (8, 4),
        ),
        (
            b"mixedcells 1\ndim 1\nsupport 2\n0 : 0\n2 : 1\nend\ncells 1\ncell 1 3 : -1 / 2\nend\n",
            (8, 5),
        ),
        (
            b"mixedcells 1\ndim 1\nsupport 2\n0 : 0\n2 : 1\nend\ncells 1\ncell 2 2 : x / 2\nend\n",
            (8, 5),
        ),
        (
            b"mixedcells 1\ndim 1\nsupport 2\n0 : 0\n2 : 1\nend\ncells 1\ncell 2 1 : -1 / 2\nend\n",
            (8, 5),
        ),
        (
            b"mixedcells 1\ndim 1\nsupport 2\n0 : 0\n2 : 1\nend\ncells 1\ncell 1 2 : -1 / 0\nend\n",
            (8, 5),
        ),
        (
            b"mixedcells 1\ndim 1\nsupport 2\n0 : 0\n2 : 1\nend\ncells 1\ncell 1 2 : -170141183460469231731687303715884105727 / 170141183460469231731687303715884105727\nend\n",
            (0, 0),
        ),
        (
            b"mixedcells 1\ndim 1\nsupport 2\n0 : 0\n2 : 1\nend\ncells 1\ncell 1 2 : -170141183460469231731687303715884105728 / 1\nend\n",
            (8, 5),
        ),
        (
            b"mixedcells 1\ndim 1\nsupport 2\n0 : 0\n2 : 1\nend\ncells 1\ncell 1 2 : -1 / 2\nend 1\n",
            (9, 9),
        ),
        (
            b"mixedcells 1\ndim 1\nsupport 2\n0 : 0\n2 : 1\nend\ncells 1\ncell 1 2 : -1 / 2\nmore\n",
            (9, 9),
        ),
        (
            b"mixedcells 1\ndim 1\nsupport 2\n0 : 0\n2 : 1\nend\ncells 1\ncell 1 2 : -1 / 2\nend\nmore\n",
            (10, 9),
        ),
    ];
    for (text, fault) in table {
        assert_eq!(rt; judged(rt.alloc(), text)?, fault);
    }
    Ok(())
}

#[test]
fn odd_spelling_is_rewritten(rt: HostRuntime) -> Result<(), Fail> {
    let odd =
        b"mixedcells 1\n\ndim +1 # one\nsupport 02\n0:0\n2:1\nend\n\ncells 01\ncell 1 02:-1/2\nend";
    let Ok(listing) = read_listing(rt.alloc(), odd) else {
        return Err(Fail::from("the text is no listing"));
    };
    let mut cells = Vec::new(rt.alloc());
    for listed in listing.cells {
        assert_eq!(rt; listed.line, 10);
        cells.push(FoundCell {
            cell: listed.cell,
            normal: listed.normal,
        })?;
    }
    let text = write_listing(rt.alloc(), &listing.file, &cells)?;
    assert_eq!(rt;
        text.as_slice(),
        b"mixedcells 1\ndim 1\nsupport 2\n0 : 0\n2 : 1\nend\ncells 1\ncell 1 2 : -1 / 2\nend\n".as_slice()
    );
    Ok(())
}

#[test]
fn cells_are_read_through_their_end(rt: HostRuntime) -> Result<(), Fail> {
    let text =
        b"mixedcells 1\ndim 1\nsupport 2\n0 : 0\n2 : 1\nend\n\ncells 1\ncell 1 2 : -1 / 2\n\nend\nmore\n";
    let mut lines = Lines::new(text);
    let Ok(file) = read_problem_lines(rt.alloc(), &mut lines) else {
        return Err(Fail::from("the text begins with no file"));
    };
    let Ok(part) = read_cells(rt.alloc(), &mut lines, &file) else {
        return Err(Fail::from("no cells stand behind the file"));
    };
    assert_eq!(rt; part.cells_line, 8);
    assert_eq!(rt; part.cells.len(), 1);
    assert_eq!(rt; part.end_line, 11);
    assert_eq!(rt; lines.next_line().is_some(), true);
    assert_eq!(rt; lines.next_line().is_some(), false);
    Ok(())
}
