use crate::{TextFault, read_problem, read_problem_lines, write_problem};
use line_text::{Lines, write_int};
use std::alloc::Global;
use std::test::Fail;

// The line and the kind of a text's first fault, or 0 and 0 where it is a problem file.
fn judged(alloc: Global, text: &[u8]) -> Result<(u64, u8), Fail> {
    match read_problem(alloc, text) {
        Ok(_) => Ok((0, 0)),
        Err(TextFault::Format(fault)) => Ok((fault.line, fault.kind)),
        Err(TextFault::OutOfMemory) => Err(Fail::from("out of memory")),
    }
}

#[test]
fn heads_and_counts(rt: HostRuntime) -> Result<(), Fail> {
    let table: [(&[u8], (u64, u8)); 10] = [
        (b"", (1, 8)),
        (b"mixedcells\n", (1, 1)),
        (b"mixedcells 3\n", (1, 1)),
        (b"mixedcells 02\n", (1, 1)),
        (b"mixedcells 2 1\n", (1, 1)),
        (b"mixedcells 2\n", (2, 8)),
        (b"mixedcells 1\ndim 17\n", (2, 2)),
        (b"mixedcells 1\ndim 16\n", (3, 8)),
        (b"mixedcells 1\ndim 1\nsupport 0\n", (3, 3)),
        (b"mixedcells 1\ndim 1\nsupport 3\n", (4, 8)),
    ];
    for (text, fault) in table {
        assert_eq!(rt; judged(rt.alloc(), text)?, fault);
    }
    Ok(())
}

#[test]
fn point_lines(rt: HostRuntime) -> Result<(), Fail> {
    let table: [(&[u8], (u64, u8)); 5] = [
        (b"mixedcells 1\ndim 1\nsupport 1\n0 : 1 1\nend\n", (4, 4)),
        (
            b"mixedcells 1\ndim 1\nsupport 1\n0 : 1000000001\nend\n",
            (4, 5),
        ),
        (
            b"mixedcells 1\ndim 1\nsupport 2\n0 : 0\n1000000 : 1\nend\n",
            (0, 0),
        ),
        (
            b"mixedcells 1\ndim 1\nsupport 2\n0 : 0\n1000001 : 1\nend\n",
            (5, 5),
        ),
        (
            b"mixedcells 1\r\n# note\r\n\ndim\t1\r\nsupport 2\r\n0:+0\r\n  2 : 01 # last\r\nend",
            (0, 0),
        ),
    ];
    for (text, fault) in table {
        assert_eq!(rt; judged(rt.alloc(), text)?, fault);
    }
    Ok(())
}

#[test]
fn repeated_points(rt: HostRuntime) -> Result<(), Fail> {
    let table: [(&[u8], (u64, u8)); 6] = [
        (
            b"mixedcells 1\ndim 1\nsupport 2\n0 : 0\n0 : 1\nend\n",
            (5, 6),
        ),
        (
            b"mixedcells 1\ndim 1\nsupport 5\n3 : 0\n-1 : 0\n2 : 0\n-1 : 0\n3\nend\n",
            (7, 6),
        ),
        (
            b"mixedcells 1\ndim 1\nsupport 3\n3 : 0\n3 : 0 0\n3 : 0\nend\n",
            (5, 4),
        ),
        (
            b"mixedcells 1\ndim 2\nsupport 3\n0 1 : 0\n1 0 : 0\n0 1 : 0\n",
            (6, 6),
        ),
        (
            b"mixedcells 1\ndim 2\nsupport 3\n0 1 : 0\n1 0 : 0\n0 0 : 0\nsupport 1\n0 1 : 0\nend\n",
            (0, 0),
        ),
        (
            b"mixedcells 1\ndim 2\nsupport 1\n0 1 : 0\nsupport 2\n0 1 : 0\n+0 01 : 7\nend\n",
            (7, 6),
        ),
    ];
    for (text, fault) in table {
        assert_eq!(rt; judged(rt.alloc(), text)?, fault);
    }
    Ok(())
}

#[test]
fn endings(rt: HostRuntime) -> Result<(), Fail> {
    let table: [(&[u8], (u64, u8)); 8] = [
        (
            b"mixedcells 1\ndim 1\nsupport 2\n0 : 0\n2 : 1\nend\nmore\n",
            (7, 9),
        ),
        (b"mixedcells 1\ndim 1\nsupport 1\n0 : 1\nend 1\n", (5, 9)),
        (
            b"mixedcells 1\ndim 1\nsupport 1\n0 : 1\nstart\nend\n",
            (0, 0),
        ),
        (
            b"mixedcells 1\ndim 2\nsupport 1\n0 0 : 1\nsupport 1\n0 0 : 1\nstart 0\n",
            (7, 7),
        ),
        (
            b"mixedcells 1\ndim 2\nsupport 1\n0 0 : 1\nsupport 1\n0 0 : 1\nstart 5\nend\n",
            (8, 7),
        ),
        (
            b"mixedcells 1\ndim 2\nsupport 1\n0 0 : 1\nsupport 1\n0 0 : 1\nstart 5\nstart 1 1\nend\n",
            (8, 7),
        ),
        (
            b"mixedcells 1\ndim 2\nsupport 1\n0 0 : 1\nsupport 1\n0 0 : 1\nstart 5\nstart 6\nmore\n",
            (9, 9),
        ),
        (
            b"mixedcells 1\ndim 2\nsupport 1\n0 0 : 1\nsupport 1\n0 0 : 1\nstart 5\nstart 6\nend\n",
            (0, 0),
        ),
    ];
    for (text, fault) in table {
        assert_eq!(rt; judged(rt.alloc(), text)?, fault);
    }
    Ok(())
}

const SEGMENT: &[u8] = b"mixedcells 1\ndim 1\nsupport 2\n0 : 0\n2 : 1\nend\n";

#[test]
fn cut_after_each_byte(rt: HostRuntime) -> Result<(), Fail> {
    let mut lines = Vec::new(rt.alloc());
    let mut kinds = Vec::new(rt.alloc());
    for end in 0..SEGMENT.len() + 1 {
        let (line, kind) = judged(rt.alloc(), &SEGMENT[..end])?;
        write_int(&mut lines, i128::from(line))?;
        write_int(&mut kinds, i128::from(kind))?;
    }
    assert_eq!(rt;
        lines.as_slice(),
        b"1111111111112222223333333333444444555555666600".as_slice()
    );
    assert_eq!(rt;
        kinds.as_slice(),
        b"8111111111118822228833333333884444884444887700".as_slice()
    );
    Ok(())
}

#[test]
fn each_byte_replaced(rt: HostRuntime) -> Result<(), Fail> {
    let table: [(u8, &[u8], &[u8]); 6] = [
        (
            b'#',
            b"211111111111232222343333333356444456555567660",
            b"111111111111222222333333333344444444444488770",
        ),
        (
            b':',
            b"111111111111122222233333333334404445505556666",
            b"111111111111122222233333333334404444404447779",
        ),
        (
            b'-',
            b"111111111111122222233333333334440445550556666",
            b"111111111111122222233333333334440444440447777",
        ),
        (
            b' ',
            b"111111111101122202233333330334040445050556660",
            b"111111111101122202233333330334040444040447770",
        ),
        (
            b'\n',
            b"211111111111032222043333333305444406555507660",
            b"111111111111022222033333333304444404444407770",
        ),
        (
            b'9',
            b"111111111111122224233333333630040040050056666",
            b"111111111111122224233333333430040040040047777",
        ),
    ];
    for (byte, lines, kinds) in table {
        let mut found_lines = Vec::new(rt.alloc());
        let mut found_kinds = Vec::new(rt.alloc());
        for place in 0..SEGMENT.len() {
            let mut text = Vec::from_slice(rt.alloc(), SEGMENT)?;
            text[place] = byte;
            let (line, kind) = judged(rt.alloc(), &text)?;
            write_int(&mut found_lines, i128::from(line))?;
            write_int(&mut found_kinds, i128::from(kind))?;
        }
        assert_eq!(rt; found_lines.as_slice(), lines);
        assert_eq!(rt; found_kinds.as_slice(), kinds);
    }
    Ok(())
}

// The canonical text of the file that the text begins with.
fn rewritten(alloc: Global, text: &[u8]) -> Result<Vec<u8>, Fail> {
    let mut lines = Lines::new(text);
    let file = read_problem_lines(alloc, &mut lines)?;
    let mut out = Vec::new(alloc);
    write_problem(&file, &mut out)?;
    Ok(out)
}

#[test]
fn odd_spelling_is_rewritten(rt: HostRuntime) -> Result<(), Fail> {
    let odd =
        b"mixedcells 1\r\n# note\r\n\ndim\t1\r\nsupport 2\r\n0:+0\r\n  2 : 01 # last\r\nend\nmore";
    let found = rewritten(rt.alloc(), odd)?;
    assert_eq!(rt; found.as_slice(), SEGMENT);
    let starts =
        b"mixedcells 1\ndim 2\nsupport 1\n-3 2 : 3\nsupport 2\n0 0 : 5\n1 0 : -40\nstart 100\nstart 7\nend\n".as_slice();
    let found = rewritten(rt.alloc(), starts)?;
    assert_eq!(rt; found.as_slice(), starts);
    let perturbed = b"mixedcells 2\ndim 1\nsupport 2\n0 : 7\n1 : 7\nend\n".as_slice();
    let found = rewritten(rt.alloc(), perturbed)?;
    assert_eq!(rt; found.as_slice(), perturbed);
    Ok(())
}
