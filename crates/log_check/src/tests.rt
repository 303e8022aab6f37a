ghost use Rattle.std.specs.Prelude.{IfOk};
ghost use Rattle.log_check.specs.Verdicts.{HasShapes};

use crate::{CheckFault, PathLog, Verdict, verify};
use path_log::{read_log, read_log_is_formed};
use std::alloc::Global;
use std::test::Fail;
use support_text::TextFault;

// A segment of length two.
const SEGMENT: &[u8] = b"mixedcells 1\ndim 1\nsupport 2\n0 : 0\n2 : 1\nend\n";

// A log that has the nodes' numbers that it asks for.
fn read(alloc: Global, text: &[u8]) -> Result<PathLog, Fail>
    ensures { IfOk result HasShapes }
{
    read_log_is_formed();
    match read_log(alloc, text) {
        Ok(log) => Ok(log),
        Err(TextFault::OutOfMemory) => Err(Fail::from("out of memory")),
        Err(TextFault::Format(_fault)) => Err(Fail::from("the text is no log")),
    }
}

// The line and the reason: 0 and 0 for yes, the line and 0 for a number that doesn't fit.
fn judged(alloc: Global, file: &[u8], more: &[u8]) -> Result<(u64, u8), Fail> {
    let mut text = file.to_vec(alloc)?;
    text.extend_from_slice(more)?;
    let log = read(alloc, &text)?;
    match verify(alloc, &log) {
        Ok(Verdict::Yes) => Ok((0, 0)),
        Ok(Verdict::No { line, reason }) => Ok((line, reason)),
        Err(CheckFault::Overflow { line }) => Ok((line, 0)),
        Err(CheckFault::OutOfMemory) => Err(Fail::from("out of memory")),
    }
}

#[test]
fn logs_of_a_segment(rt: HostRuntime) -> Result<(), Fail> {
    let table: [(&[u8], (u64, u8)); 12] = [
        (
            b"log 3\nnode 3 4 : 2 : 1\nnode 1 4 : 2 : 1\nnode 1 2 : 2 : 1\ncells 1\ncell 1 2 : -1 / 2\nend\n",
            (0, 0),
        ),
        (
            b"log 3\nnode 3 4 : 4 : 2\n\nnode 1 4 : 2 : 1\nnode 1 2 : 6 : 3\ncells 1\ncell 01 +2 : -1 / 2\nend\n",
            (0, 0),
        ),
        (
            b"log 3\nnode 3 4 : 2 : 1\nnode 1 2 : 2 : 1\nnode 1 2 : 2 : 1\ncells 1\ncell 1 2 : -1 / 2\nend\n",
            (9, 11),
        ),
        (
            b"log 4\nnode 3 4 : 2 : 1\nnode 1 4 : 2 : 1\nnode 1 2 : 2 : 1\nnode 1 2 : 2 : 1\ncells 1\ncell 1 2 : -1 / 2\nend\n",
            (11, 11),
        ),
        (
            b"log 3\nnode 3 4 : 2 : 1\nnode 1 4 : 2 : 1\nnode 1 2 : 1 : 1\ncells 1\ncell 1 2 : -1 / 2\nend\n",
            (10, 12),
        ),
        (
            b"log 1\nnode 3 4 : 2 : 170141183460469231731687303715884105727\ncells 1\ncell 1 2 : -1 / 2\nend\n",
            (8, 0),
        ),
        (
            b"log 2\nnode 3 4 : 2 : 1\nnode 1 4 : 2 : 1\ncells 1\ncell 1 2 : -1 / 2\nend\n",
            (10, 14),
        ),
        (
            b"log 3\nnode 3 4 : 2 : 1\nnode 1 4 : 2 : 1\nnode 1 2 : 2 : 1\ncells 1\ncell 1 2 : -2 / 4\nend\n",
            (12, 15),
        ),
        (
            b"log 3\nnode 3 4 : 2 : 1\nnode 1 4 : 2 : 1\nnode 1 2 : 2 : 1\ncells 1\ncell 1 2 : 1 / 2\nend\n",
            (12, 15),
        ),
        (
            b"log 3\nnode 3 4 : 2 : 1\nnode 1 4 : 2 : 1\nnode 1 2 : 2 : 1\ncells 2\ncell 1 2 : -1 / 2\ncell 1 2 : -1 / 2\nend\n",
            (13, 15),
        ),
        (
            b"log 3\nnode 3 4 : 2 : 1\nnode 1 4 : 2 : 1\nnode 1 2 : 2 : 1\ncells 0\nend\n",
            (12, 15),
        ),
        (
            b"log 3\nnode 3 4 : 2 : 1\nnode 1 4 : 2 : 1\nnode 1 2 : 2 : 1\ncells 0\n\nend\n",
            (13, 15),
        ),
    ];
    for (more, answer) in table {
        assert_eq!(rt; judged(rt.alloc(), SEGMENT, more)?, answer);
    }
    Ok(())
}

#[test]
fn two_points_that_are_level_where_the_first_cell_ends(rt: HostRuntime) -> Result<(), Fail> {
    let file = b"mixedcells 1\ndim 1\nsupport 2\n0 : 7\n1 : 7\nend\n";
    let more = b"log 1\nnode 3 4 : 1 : 1\ncells 0\nend\n";
    assert_eq!(rt; judged(rt.alloc(), file, more)?, (8, 13));
    Ok(())
}
