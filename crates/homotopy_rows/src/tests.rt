ghost use Rattle.std.specs.Prelude.{IsTrue};
ghost use Rattle.int_vectors.specs.Vectors.{Each};
ghost use Rattle.cell_certificate.specs.Written.{IsListed};

use crate::{RowFault, rows_of, write_rows};
use cayley::Problem;
use cell_certificate::{Verdict, check};
use listing_text::{ListedCell, read_listing};
use std::alloc::Global;
use std::test::Fail;

// Whether each line has one pair of points for each support, and as many numbers over a denominator
// of at least 1.
fn are_listed(problem: &Problem, cells: &[ListedCell]) -> bool
    ensures { IsTrue result → Each cells.now (IsListed problem.now) }
{
    cells.iter().all(|x| {
        problem.contains(&x.cell) && x.normal.v.len() == problem.dim() && 0 < x.normal.den
    })
}

// The text of the powers of a listing that was judged right, or the number of its first flat line.
fn powers_of(alloc: Global, text: &[u8]) -> Result<(u64, Vec<u8>), Fail> {
    let Ok(listing) = read_listing(alloc, text) else {
        return Err(Fail::from("no listing"));
    };
    let problem = Problem::plain(alloc, &listing.file)?;
    if !are_listed(&problem, &listing.cells) {
        return Err(Fail::from("other cells"));
    }
    let Ok(Verdict::Yes) = check(alloc, &listing) else {
        return Err(Fail::from("not right"));
    };
    match rows_of(alloc, &listing) {
        Ok(rows) => Ok((0, write_rows(alloc, &rows)?)),
        Err(RowFault::Flat { line }) => Ok((line, Vec::new(alloc))),
        Err(RowFault::OutOfMemory) => Err(Fail::from("out of memory")),
    }
}

#[test]
fn powers_of_small_listings(rt: HostRuntime) -> Result<(), Fail> {
    let table: [(&[u8], u64, &[u8]); 6] = [
        (
            b"mixedcells 1\ndim 1\nsupport 3\n0 : 0\n1 : -2\n3 : 0\nend\ncells 2\ncell 1 2 : 2 / 1\ncell 2 3 : -1 / 1\nend\n",
            0,
            b"homotopies 2\ncell 1 2 : 1\npowers 0 0 6\ncell 2 3 : 1\npowers 3 0 0\nend\n",
        ),
        (
            b"mixedcells 1\ndim 1\nsupport 2\n0 : 0\n2 : 1\nend\ncells 1\ncell 1 2 : -1 / 2\nend\n",
            0,
            b"homotopies 1\ncell 1 2 : 1\npowers 0 0\nend\n",
        ),
        (
            b"mixedcells 2\ndim 1\nsupport 3\n0 : 0\n1 : 0\n2 : 0\nend\ncells 2\ncell 1 2 : 0 / 1\ncell 2 3 : 0 / 1\nend\n",
            9,
            b"",
        ),
        (
            b"mixedcells 1\ndim 1\nsupport 3\n0 : 0\n4 : 1\n2 : 5\nend\ncells 1\ncell 1 2 : -1 / 4\nend\n",
            0,
            b"homotopies 1\ncell 1 2 : 2\npowers 0 0 9\nend\n",
        ),
        (
            b"mixedcells 1\ndim 2\nsupport 4\n0 0 : 3\n1 0 : 10\n0 1 : 20\n1 1 : 90\nsupport 4\n0 0 : 5\n1 0 : 40\n0 1 : 9\n1 1 : 1\nend\ncells 2\ncell 1 2 1 4 : -7 11 / 1\ncell 1 3 3 4 : 8 -17 / 1\nend\n",
            0,
            b"homotopies 2\ncell 1 2 1 4 : 1\npowers 0 0 28 91\npowers 0 28 15 0\ncell 1 3 3 4 : 1\npowers 0 15 0 78\npowers 13 56 0 0\nend\n",
        ),
        (
            b"mixedcells 1\ndim 1\nsupport 1\n5 : 7\nend\ncells 0\nend\n",
            0,
            b"homotopies 0\nend\n",
        ),
    ];
    for (listing, line, want) in table {
        let found = powers_of(rt.alloc(), listing)?;
        assert_eq!(rt; found.0, line);
        assert_eq!(rt; found.1.as_slice(), want);
    }
    Ok(())
}
