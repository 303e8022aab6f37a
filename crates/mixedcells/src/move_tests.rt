// Runs of `move`.
use crate::tests::{THREE_POINTS, run, run_line};
use line_text::write_int;
use std::alloc::Global;
use std::test::Fail;
use support_text::{read_problem, write_bytes};

const RAISED: &[u8] = b"mixedcells 1\ndim 1\nsupport 3\n0 : 0\n1 : 5\n3 : 0\nend\n";

// A text and then another one.
fn joined(alloc: Global, text: &[u8], more: &[u8]) -> Result<Vec<u8>, Fail> {
    let mut whole = text.to_vec(alloc)?;
    whole.extend_from_slice(more)?;
    Ok(whole)
}

#[test]
fn small_listings_are_moved(rt: HostRuntime) -> Result<(), Fail> {
    let four = b"mixedcells 1\ndim 1\nsupport 4\n0 : 3\n1 : 0\n2 : 0\n3 : 3\nend\n";
    let rows: [(&[u8], &[u8], u8, &[u8], &[u8]); 7] = [
        (
            THREE_POINTS,
            b"cells 2\ncell 1 2 : 2 / 1\ncell 2 3 : -1 / 1\nend\nheights 0 5 0\nend\n",
            0,
            RAISED,
            b"cells 1\ncell 1 3 : 0 / 1\nend\n",
        ),
        (
            RAISED,
            b"cells 1\ncell 1 3 : 0 / 1\nend\nheights 0 -2 0\nend\n",
            0,
            THREE_POINTS,
            b"cells 2\ncell 1 2 : 2 / 1\ncell 2 3 : -1 / 1\nend\n",
        ),
        (
            four,
            b"cells 3\ncell 1 2 : 3 / 1\ncell 2 3 : 0 / 1\ncell 3 4 : -3 / 1\nend\nheights -3 0 0 -3\nend\n",
            4,
            b"",
            b"tie: cell 1 2 at 1 / 2 points 1 3 1 4\n",
        ),
        // A cell is missing, and what comes of it.
        (
            THREE_POINTS,
            b"cells 1\ncell 1 2 : 2 / 1\nend\nheights 0 -2 0\nend\n",
            0,
            THREE_POINTS,
            b"cells 1\ncell 1 2 : 2 / 1\nend\n",
        ),
        // Both cells end at time 1, where all three points are level.
        (
            THREE_POINTS,
            b"cells 2\ncell 1 2 : 2 / 1\ncell 2 3 : -1 / 1\nend\nheights 0 0 0\nend\n",
            0,
            b"mixedcells 1\ndim 1\nsupport 3\n0 : 0\n1 : 0\n3 : 0\nend\n",
            b"cells 0\nend\n",
        ),
        (
            THREE_POINTS,
            b"cells 1\ncell 1 2 : 3 / 1\nend\nheights 0 5 0\nend\n",
            1,
            b"",
            b"no: line 9 reason 3\n",
        ),
        (
            THREE_POINTS,
            b"cells 0\nend\nheights 0 5\nend\n",
            3,
            b"",
            b"format: line 10 kind 4\n",
        ),
    ];
    for (file, more, want, head, tail) in rows {
        let input = joined(rt.alloc(), file, more)?;
        let text = joined(rt.alloc(), head, tail)?;
        let (status, written) = run(rt.alloc(), "move", &input)?;
        assert_eq!(rt; status, want);
        assert_eq!(rt; written.as_slice(), text.as_slice());
    }
    Ok(())
}

// A listing, and the heights of a file of the same points.
fn move_text(alloc: Global, listing: &[u8], second: &[u8]) -> Result<Vec<u8>, Fail> {
    let Ok(file) = read_problem(alloc, second) else {
        return Err(Fail::from("no file"));
    };
    let mut text = listing.to_vec(alloc)?;
    for support in file.supports() {
        write_bytes(&mut text, b"heights")?;
        for x in support {
            write_bytes(&mut text, b" ")?;
            write_int(&mut text, i128::from(x.height))?;
        }
        write_bytes(&mut text, b"\n")?;
    }
    write_bytes(&mut text, b"end\n")?;
    Ok(text)
}

#[test]
fn lists_are_moved_there_and_back(rt: HostRuntime) -> Result<(), Fail> {
    let rows = [
        ("make cyclic 3 --seed 1", "make cyclic 3 --seed 2"),
        ("make cyclic 4 --seed 3", "make cyclic 4 --seed 4"),
        ("make cyclic 5 --seed 1", "make cyclic 5 --seed 2"),
    ];
    for (here, there) in rows {
        let (_, first, _) = run_line(rt.alloc(), here)?;
        let (_, second, _) = run_line(rt.alloc(), there)?;
        let (_, old) = run(rt.alloc(), "list", &first)?;
        let (_, new) = run(rt.alloc(), "list", &second)?;
        let way = move_text(rt.alloc(), &old, &second)?;
        let (status, moved) = run(rt.alloc(), "move", &way)?;
        assert_eq!(rt; status, 0);
        assert_eq!(rt; moved.as_slice(), new.as_slice());
        let way = move_text(rt.alloc(), &moved, &first)?;
        let (status, back) = run(rt.alloc(), "move", &way)?;
        assert_eq!(rt; status, 0);
        assert_eq!(rt; back.as_slice(), old.as_slice());
    }
    Ok(())
}
