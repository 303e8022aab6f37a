// Runs of `trace` and `verify`.
use crate::along_tests::TWO_LEVEL;
use crate::tests::{LONG_EDGES, PERTURBED, SEGMENT, SQUARES, run};
use std::alloc::Global;
use std::test::Fail;

// What stands behind the file in the segment's log.
const SEGMENT_LOG: &[u8] =
    b"log 3\nnode 3 4 : 2 : 1\nnode 1 4 : 2 : 1\nnode 1 2 : 2 : 1\ncells 1\ncell 1 2 : -1 / 2\nend\n";

// A file and what stands behind it.
fn log_text(alloc: Global, file: &[u8], rest: &[u8]) -> Result<Vec<u8>, Fail> {
    let mut text = file.to_vec(alloc)?;
    text.extend_from_slice(rest)?;
    Ok(text)
}

#[test]
fn the_log_of_a_segment(rt: HostRuntime) -> Result<(), Fail> {
    let want = log_text(rt.alloc(), SEGMENT, SEGMENT_LOG)?;
    let (status, log) = run(rt.alloc(), "trace", SEGMENT)?;
    assert_eq!(rt; status, 0);
    assert_eq!(rt; log.as_slice(), want.as_slice());
    let (status, answer) = run(rt.alloc(), "verify", &log)?;
    assert_eq!(rt; status, 0);
    assert_eq!(rt; answer.as_slice(), b"yes\n".as_slice());
    Ok(())
}

#[test]
fn logs_that_trace_writes_pass(rt: HostRuntime) -> Result<(), Fail> {
    for file in [SQUARES, PERTURBED] {
        let (status, log) = run(rt.alloc(), "trace", file)?;
        assert_eq!(rt; status, 0);
        let (status, answer) = run(rt.alloc(), "verify", &log)?;
        assert_eq!(rt; status, 0);
        assert_eq!(rt; answer.as_slice(), b"yes\n".as_slice());
    }
    Ok(())
}

#[test]
fn wrong_logs_are_refused(rt: HostRuntime) -> Result<(), Fail> {
    let rows: [(&[u8], &[u8], u8, &[u8]); 9] = [
        (
            SEGMENT,
            b"log 3\nnode 3 4 : 2 : 1\nnode 1 2 : 2 : 1\nnode 1 2 : 2 : 1\ncells 1\ncell 1 2 : -1 / 2\nend\n",
            1,
            b"no: line 9 reason 11\n",
        ),
        (
            SEGMENT,
            b"log 3\nnode 3 4 : 2 : 1\nnode 1 4 : 2 : 1\nnode 1 2 : 1 : 1\ncells 1\ncell 1 2 : -1 / 2\nend\n",
            1,
            b"no: line 10 reason 12\n",
        ),
        (
            SEGMENT,
            b"log 2\nnode 3 4 : 2 : 1\nnode 1 4 : 2 : 1\ncells 1\ncell 1 2 : -1 / 2\nend\n",
            1,
            b"no: line 10 reason 14\n",
        ),
        (
            SEGMENT,
            b"log 3\nnode 3 4 : 2 : 1\nnode 1 4 : 2 : 1\nnode 1 2 : 2 : 1\ncells 1\ncell 1 2 : -2 / 4\nend\n",
            1,
            b"no: line 12 reason 15\n",
        ),
        (
            SEGMENT,
            b"log 3\nnode 3 4 : 2 : 1\nnode 1 4 : 2 : 1\nnode 1 2 : 2 : 1\ncells 0\nend\n",
            1,
            b"no: line 12 reason 15\n",
        ),
        (
            SEGMENT,
            b"log 3\nnode 3 4 : 2 : 170141183460469231731687303715884105727\nnode 1 4 : 2 : 1\nnode 1 2 : 2 : 1\ncells 1\ncell 1 2 : -1 / 2\nend\n",
            5,
            b"overflow: line 8\n",
        ),
        (
            SEGMENT,
            b"log 0\nnode 3 4 : 2 : 1\nnode 1 4 : 2 : 1\nnode 1 2 : 2 : 1\ncells 1\ncell 1 2 : -1 / 2\nend\n",
            3,
            b"format: line 7 kind 3\n",
        ),
        (
            SEGMENT,
            b"log 3\nnode 3 4 : 2 : 1\nnode 1 4 : 2 : 1\nnode 2 1 : 2 : 1\ncells 1\ncell 1 2 : -1 / 2\nend\n",
            3,
            b"format: line 10 kind 5\n",
        ),
        // Two points are level where the start cell ends.
        (
            TWO_LEVEL,
            b"log 1\nnode 3 4 : 1 : 1\ncells 0\nend\n",
            1,
            b"no: line 8 reason 13\n",
        ),
    ];
    for (file, rest, want, line) in rows {
        let log = log_text(rt.alloc(), file, rest)?;
        let (status, written) = run(rt.alloc(), "verify", &log)?;
        assert_eq!(rt; status, want);
        assert_eq!(rt; written.as_slice(), line);
    }
    Ok(())
}

#[test]
fn paths_that_are_not_traced(rt: HostRuntime) -> Result<(), Fail> {
    let rows: [(&[u8], u8, &[u8]); 3] = [
        (TWO_LEVEL, 4, b"tie: cell 3 4 at 7 / 1 points 1 1 1 2\n"),
        (
            LONG_EDGES,
            5,
            b"overflow: cell 3 4 3 5 3 6 3 7 3 8 3 9 3 10\n",
        ),
        (b"mixedcells 1\ndim 0\n", 3, b"format: line 2 kind 2\n"),
    ];
    for (file, want, line) in rows {
        let (status, written) = run(rt.alloc(), "trace", file)?;
        assert_eq!(rt; status, want);
        assert_eq!(rt; written.as_slice(), line);
    }
    Ok(())
}
