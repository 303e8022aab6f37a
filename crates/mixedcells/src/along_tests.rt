// Runs of `list`, `sum` and `generic`.
use crate::tests::{LONG_EDGES, PERTURBED, SQUARES, THREE_POINTS, run, run_line};
use std::alloc::Global;
use std::test::Fail;

const ONE_POINT: &[u8] = b"mixedcells 1\ndim 1\nsupport 1\n5 : 7\nend\n";

const TRIANGLES: &[u8] =
    b"mixedcells 1\ndim 2\nsupport 3\n0 0 : 3\n1 0 : 10\n0 1 : 20\nsupport 3\n0 0 : 5\n1 0 : 40\n0 1 : 9\nstart 100\nstart 100\nend\n";

const STARTED_SQUARES: &[u8] =
    b"mixedcells 1\ndim 2\nsupport 4\n0 0 : 3\n1 0 : 10\n0 1 : 20\n1 1 : 90\nsupport 4\n0 0 : 5\n1 0 : 40\n0 1 : 9\n1 1 : 1\nstart 100\nstart 100\nend\n";

const PERTURBED_SQUARES: &[u8] =
    b"mixedcells 2\ndim 2\nsupport 4\n0 0 : 3\n1 0 : 10\n0 1 : 20\n1 1 : 90\nsupport 4\n0 0 : 5\n1 0 : 40\n0 1 : 9\n1 1 : 1\nstart 100\nstart 100\nend\n";

// The started squares, moved by (-3, 2).
const MOVED_STARTED_SQUARES: &[u8] =
    b"mixedcells 1\ndim 2\nsupport 4\n-3 2 : 3\n-2 2 : 10\n-3 3 : 20\n-2 3 : 90\nsupport 4\n-3 2 : 5\n-2 2 : 40\n-3 3 : 9\n-2 3 : 1\nstart 100\nstart 100\nend\n";

pub(crate) const TWO_LEVEL: &[u8] = b"mixedcells 1\ndim 1\nsupport 2\n0 : 7\n1 : 7\nend\n";

const TWO_PERTURBED: &[u8] = b"mixedcells 2\ndim 1\nsupport 2\n0 : 7\n1 : 7\nend\n";

const SQUARE_CELLS: &[u8] = b"cells 2\ncell 1 2 1 4 : -7 11 / 1\ncell 1 3 3 4 : 8 -17 / 1\nend\n";

// The file's text and then its cells.
fn listing_of(alloc: Global, file: &[u8], cells: &[u8]) -> Result<Vec<u8>, Fail> {
    let mut text = file.to_vec(alloc)?;
    text.extend_from_slice(cells)?;
    Ok(text)
}

#[test]
fn listings_along_paths(rt: HostRuntime) -> Result<(), Fail> {
    let rows: [(&[u8], &[u8]); 8] = [
        (
            THREE_POINTS,
            b"cells 2\ncell 1 2 : 2 / 1\ncell 2 3 : -1 / 1\nend\n",
        ),
        (ONE_POINT, b"cells 0\nend\n"),
        (TRIANGLES, b"cells 1\ncell 1 2 1 3 : -7 -4 / 1\nend\n"),
        (STARTED_SQUARES, SQUARE_CELLS),
        (MOVED_STARTED_SQUARES, SQUARE_CELLS),
        (PERTURBED_SQUARES, SQUARE_CELLS),
        (TWO_PERTURBED, b"cells 1\ncell 1 2 : 0 / 1\nend\n"),
        (
            PERTURBED,
            b"cells 2\ncell 1 2 : 0 / 1\ncell 2 3 : 0 / 1\nend\n",
        ),
    ];
    for (file, cells) in rows {
        let (status, written) = run(rt.alloc(), "list", file)?;
        let want = listing_of(rt.alloc(), file, cells)?;
        assert_eq!(rt; status, 0);
        assert_eq!(rt; written.as_slice(), want.as_slice());
    }
    Ok(())
}

#[test]
fn the_walk_lists_what_all_choices_list(rt: HostRuntime) -> Result<(), Fail> {
    let rows: [&[u8]; 9] = [
        THREE_POINTS,
        ONE_POINT,
        TRIANGLES,
        SQUARES,
        STARTED_SQUARES,
        MOVED_STARTED_SQUARES,
        PERTURBED_SQUARES,
        TWO_PERTURBED,
        PERTURBED,
    ];
    for file in rows {
        let (status, walked) = run(rt.alloc(), "list", file)?;
        let (other, tried) = run(rt.alloc(), "plain", file)?;
        assert_eq!(rt; status, 0);
        assert_eq!(rt; other, 0);
        assert_eq!(rt; walked.as_slice(), tried.as_slice());
    }
    Ok(())
}

#[test]
fn sizes_of_path_trees(rt: HostRuntime) -> Result<(), Fail> {
    let rows: [(&[u8], &[u8]); 5] = [
        (THREE_POINTS, b"cells 2\ntree 5\n"),
        (ONE_POINT, b"cells 0\ntree 2\n"),
        (TRIANGLES, b"cells 1\ntree 5\n"),
        (STARTED_SQUARES, b"cells 2\ntree 13\n"),
        (PERTURBED, b"cells 2\ntree 5\n"),
    ];
    for (file, sum) in rows {
        let (status, written) = run(rt.alloc(), "sum", file)?;
        assert_eq!(rt; status, 0);
        assert_eq!(rt; written.as_slice(), sum);
    }
    Ok(())
}

#[test]
fn refusals_along_paths(rt: HostRuntime) -> Result<(), Fail> {
    let rows: [(&str, &[u8], u8, &[u8]); 7] = [
        (
            "list",
            TWO_LEVEL,
            4,
            b"tie: cell 3 4 at 7 / 1 points 1 1 1 2\n",
        ),
        (
            "sum",
            TWO_LEVEL,
            4,
            b"tie: cell 3 4 at 7 / 1 points 1 1 1 2\n",
        ),
        (
            "generic",
            TWO_LEVEL,
            4,
            b"tie: cell 1 2 at 7 / 1 points 1 3 1 4\n",
        ),
        ("generic", TWO_PERTURBED, 0, b"tie free\n"),
        ("generic", STARTED_SQUARES, 0, b"tie free\n"),
        (
            "list",
            LONG_EDGES,
            5,
            b"overflow: cell 3 4 3 5 3 6 3 7 3 8 3 9 3 10\n",
        ),
        ("list", b"", 3, b"format: line 1 kind 8\n"),
    ];
    for (command, file, want, line) in rows {
        let (status, written) = run(rt.alloc(), command, file)?;
        assert_eq!(rt; status, want);
        assert_eq!(rt; written.as_slice(), line);
    }
    Ok(())
}

#[test]
fn a_listing_is_no_problem_file(rt: HostRuntime) -> Result<(), Fail> {
    let listing = listing_of(rt.alloc(), STARTED_SQUARES, SQUARE_CELLS)?;
    let (status, written) = run(rt.alloc(), "list", &listing)?;
    assert_eq!(rt; status, 3);
    assert_eq!(rt; written.as_slice(), b"format: line 16 kind 9\n".as_slice());
    Ok(())
}

#[test]
fn more_searchers_are_a_team(rt: HostRuntime) -> Result<(), Fail> {
    let rows = [
        "list --searchers 2",
        "list --searchers=64",
        "sum --searchers 002",
        "sum --searchers=8",
    ];
    for line in rows {
        let (status, written, left) = run_line(rt.alloc(), line)?;
        assert_eq!(rt; status, 11);
        assert_eq!(rt; written.len(), 0);
        assert_eq!(rt; left, 5);
    }
    Ok(())
}

#[test]
fn one_searcher_reads(rt: HostRuntime) -> Result<(), Fail> {
    let rows = [
        "list --searchers 1",
        "sum --searchers=01",
        "list",
        "sum",
        "generic",
    ];
    for line in rows {
        let (status, written, left) = run_line(rt.alloc(), line)?;
        assert_eq!(rt; status, 3);
        assert_eq!(rt; written.as_slice(), b"format: line 1 kind 1\n".as_slice());
        assert_eq!(rt; left, 0);
    }
    Ok(())
}

#[test]
fn check_passes_the_list_of_cyclic_five(rt: HostRuntime) -> Result<(), Fail> {
    let (status, made, _) = run_line(rt.alloc(), "make cyclic 5 --seed 1")?;
    assert_eq!(rt; status, 0);
    let (status, listing) = run(rt.alloc(), "list", &made)?;
    assert_eq!(rt; status, 0);
    let (status, answer) = run(rt.alloc(), "check", &listing)?;
    assert_eq!(rt; status, 0);
    assert_eq!(rt; answer.as_slice(), b"yes\n".as_slice());
    Ok(())
}

#[test]
fn too_many_choices_of_cyclic_seven(rt: HostRuntime) -> Result<(), Fail> {
    let (status, made, _) = run_line(rt.alloc(), "make cyclic 7 --seed 1")?;
    assert_eq!(rt; status, 0);
    let (status, line) = run(rt.alloc(), "generic", &made)?;
    assert_eq!(rt; status, 10);
    assert_eq!(rt; line.as_slice(), b"too many: 1157625\n".as_slice());
    Ok(())
}
