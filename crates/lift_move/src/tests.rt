use crate::{MoveFile, read_move, second_file};
use cayley::Problem;
use line_text::Lines;
use listing_text::read_listing_lines;
use std::alloc::Global;
use std::test::Fail;
use support_text::{TextFault, write_problem};

// A listing of two points.
const LISTING: &[u8] =
    b"mixedcells 1\ndim 1\nsupport 2\n0 : 0\n2 : 1\nstart\nend\ncells 1\ncell 1 2 : -1 / 2\nend\n";

// A text and then another one.
fn joined(alloc: Global, text: &[u8], more: &[u8]) -> Result<Vec<u8>, Fail> {
    let mut whole = text.to_vec(alloc)?;
    whole.extend_from_slice(more)?;
    Ok(whole)
}

// The line and the kind of a text's first fault, or 0 and 0 where it is a move file.
fn judged(alloc: Global, text: &[u8]) -> Result<(u64, u8), Fail> {
    match read_move(alloc, text) {
        Ok(_found) => Ok((0, 0)),
        Err(TextFault::Format(fault)) => Ok((fault.line, fault.kind)),
        Err(TextFault::OutOfMemory) => Err(Fail::from("out of memory")),
    }
}

#[test]
fn second_heights_and_their_first_faults(rt: HostRuntime) -> Result<(), Fail> {
    let table: [(&[u8], (u64, u8)); 12] = [
        (b"heights 3 -4\nend\n", (0, 0)),
        (b" heights  1000000000 -1000000000 # second\n\nend", (0, 0)),
        (b"", (11, 8)),
        (b"end\n", (11, 3)),
        (b"heights 3\nend\n", (11, 4)),
        (b"heights 3 -4 5\nend\n", (11, 4)),
        (b"heights 3 x\nend\n", (11, 4)),
        (b"heights 3 1000000001\nend\n", (11, 5)),
        (b"heights -1000000001 x\nend\n", (11, 5)),
        (b"heights 3 -4\n", (12, 8)),
        (b"heights 3 -4\nheights 3 -4\nend\n", (12, 9)),
        (b"heights 3 -4\nend\nend\n", (13, 9)),
    ];
    for (more, want) in table {
        let text = joined(rt.alloc(), LISTING, more)?;
        assert_eq!(rt; judged(rt.alloc(), &text)?, want);
    }
    Ok(())
}

#[test]
fn faults_of_the_listing_come_first(rt: HostRuntime) -> Result<(), Fail> {
    let table: [(&[u8], (u64, u8)); 5] = [
        (b"", (1, 8)),
        (
            b"mixedcells 2\ndim 1\nsupport 2\n0 : 0\n2 : 1\nend\ncells 0\nend\nheights 0 1\nend\n",
            (1, 1),
        ),
        (b"mixedcells 1 1\ndim 0\n", (1, 1)),
        (b"mixedcells 1\ndim 0\n", (2, 2)),
        (
            b"mixedcells 1\ndim 1\nsupport 2\n0 : 0\n2 : 1\nend\nheights 0 1\nend\n",
            (7, 3),
        ),
    ];
    for (text, want) in table {
        assert_eq!(rt; judged(rt.alloc(), text)?, want);
    }
    Ok(())
}

// The text of the file with the second heights.
fn second_text(alloc: Global, found: &MoveFile) -> Result<Vec<u8>, Fail> {
    // A segment is made exactly of heights in their limits, one for each point.
    let Ok(_segment) = Problem::between(alloc, &found.listing.file, &found.second) else {
        return Err(Fail::from("no segment"));
    };
    let file = second_file(alloc, &found.listing.file, &found.second)?;
    let mut text = Vec::new(alloc);
    write_problem(&file, &mut text)?;
    Ok(text)
}

#[test]
fn the_second_file_has_the_second_heights(rt: HostRuntime) -> Result<(), Fail> {
    let text =
        b"mixedcells 1\ndim 2\nsupport 2\n0 0 : 0\n1 0 : 1\nsupport 2\n0 0 : 0\n0 1 : 1\nstart 3\nstart 4\nend\ncells 0\nend\nheights 5 6\nheights -7 8\nend\n";
    let Ok(found) = read_move(rt.alloc(), text) else {
        return Err(Fail::from("no move file"));
    };
    let file = second_text(rt.alloc(), &found)?;
    assert_eq!(rt;
        file.as_slice(),
        b"mixedcells 1\ndim 2\nsupport 2\n0 0 : 5\n1 0 : 6\nsupport 2\n0 0 : -7\n0 1 : 8\nstart 3\nstart 4\nend\n".as_slice()
    );
    Ok(())
}

#[test]
fn a_listing_leaves_what_follows(rt: HostRuntime) -> Result<(), Fail> {
    let text = joined(rt.alloc(), LISTING, b"heights 3 -4\nend\n")?;
    let mut lines = Lines::new(&text);
    let Ok(listing) = read_listing_lines(rt.alloc(), &mut lines) else {
        return Err(Fail::from("no listing"));
    };
    assert_eq!(rt; listing.cells.len(), 1);
    let Some(line) = lines.next_line() else {
        return Err(Fail::from("no line"));
    };
    assert_eq!(rt; line.number(), 11);
    Ok(())
}
