// Runs between ends that fail or run dry, and on hostile files. Both ends move one byte in a call.
use crate::many::run;
use crate::many_tests::{TWO_LEVEL, words_of};
use crate::tests::{LONG_EDGES, SEGMENT};
use edge_io::{MemorySink, MemorySource, NoGate, read_all};
use std::alloc::Global;
use std::sync::Wait;
use std::test::Fail;
use std::thread::Threads;

// What `plain` writes of the segment.
const LISTING: &[u8] =
    b"mixedcells 1\ndim 1\nsupport 2\n0 : 0\n2 : 1\nend\ncells 1\ncell 1 2 : -1 / 2\nend\n";

// The lines and the kinds of the faults of the segment's file, cut after 0, 1, 2 and more bytes.
const LINES: &[u8] = b"11111111111122222233333333334444445555556666";

const KINDS: &[u8] = b"81111111111188222288333333338844448844448877";

// What a run has left: its status, how many bytes of its source, and what stands in its sink.
type Left = (u8, usize, Vec<u8>);

// A run of these words on a file, where the read and the write with these numbers fail; none has the number 0.
fn ended<R: Threads + Wait + Sync>(
    rt: &R,
    alloc: Global,
    line: &str,
    file: &[u8],
    read: u64,
    write: u64,
) -> Result<Left, Fail> {
    let words = words_of(alloc, line)?;
    let mut source = MemorySource::new(file.to_vec(alloc)?, 1, [read].to_vec(alloc)?);
    let Ok(mut sink) = MemorySink::new(alloc, 65_536, 1, [write].to_vec(alloc)?) else {
        return Err(Fail::from("out of memory"));
    };
    let status = run(rt, alloc, &words, &mut source, &mut sink, &NoGate).status();
    let written = sink.bytes().to_vec(alloc)?;
    let left = read_all(alloc, &mut source)?;
    Ok((status, left.len(), written))
}

// The segment's file, where this stands in place of the point 2's coordinate.
fn segment_to(alloc: Global, digit: u8, behind: &[u8]) -> Result<Vec<u8>, Fail> {
    let digits = vec![in alloc; digit; 10_000]?;
    let mut file = b"mixedcells 1\ndim 1\nsupport 2\n0 : 0\n".to_vec(alloc)?;
    file.extend_from_slice(&digits)?;
    file.extend_from_slice(behind)?;
    file.extend_from_slice(b" : 1\nend\n")?;
    Ok(file)
}

#[test]
fn each_read_fails(rt: HostRuntime) -> Result<(), Fail> {
    for taken in 0..SEGMENT.len() + 1 {
        let (status, left, written) = ended(
            &rt,
            rt.alloc(),
            "plain",
            SEGMENT,
            taken as u64 + 1,
            0,
        )?;
        assert_eq!(rt; status, 6, "after {taken} bytes");
        assert_eq!(rt; left, SEGMENT.len() - taken, "after {taken} bytes");
        assert_eq!(rt; written.as_slice(), b"".as_slice(), "after {taken} bytes");
    }
    Ok(())
}

#[test]
fn each_write_fails(rt: HostRuntime) -> Result<(), Fail> {
    for held in 0..LISTING.len() {
        let (status, left, written) = ended(&rt, rt.alloc(), "plain", SEGMENT, 0, held as u64 + 1)?;
        assert_eq!(rt; status, 7, "after {held} bytes");
        assert_eq!(rt; left, 0, "after {held} bytes");
        assert_eq!(rt; written.as_slice(), &LISTING[..held], "after {held} bytes");
    }
    Ok(())
}

#[test]
fn a_file_that_is_cut(rt: HostRuntime) -> Result<(), Fail> {
    for end in 0..SEGMENT.len() - 1 {
        let (status, left, written) = ended(&rt, rt.alloc(), "plain", &SEGMENT[..end], 0, 0)?;
        let mut want = b"format: line ".to_vec(rt.alloc())?;
        want.push(LINES[end])?;
        want.extend_from_slice(b" kind ")?;
        want.push(KINDS[end])?;
        want.push(b'\n')?;
        assert_eq!(rt; status, 3, "at {end} bytes");
        assert_eq!(rt; left, 0, "at {end} bytes");
        assert_eq!(rt; written.as_slice(), want.as_slice(), "at {end} bytes");
    }
    let whole = &SEGMENT[..SEGMENT.len() - 1];
    let (status, left, written) = ended(&rt, rt.alloc(), "plain", whole, 0, 0)?;
    assert_eq!(rt; status, 0);
    assert_eq!(rt; left, 0);
    assert_eq!(rt; written.as_slice(), LISTING);
    Ok(())
}

#[test]
fn a_coordinate_of_ten_thousand_nines(rt: HostRuntime) -> Result<(), Fail> {
    let file = segment_to(rt.alloc(), b'9', b"")?;
    let (status, left, written) = ended(&rt, rt.alloc(), "plain", &file, 0, 0)?;
    assert_eq!(rt; status, 3);
    assert_eq!(rt; left, 0);
    assert_eq!(rt; written.as_slice(), b"format: line 5 kind 5\n".as_slice());
    Ok(())
}

#[test]
fn ten_thousand_noughts_before_a_coordinate(rt: HostRuntime) -> Result<(), Fail> {
    let file = segment_to(rt.alloc(), b'0', b"2")?;
    let (status, left, written) = ended(&rt, rt.alloc(), "plain", &file, 0, 0)?;
    assert_eq!(rt; status, 0);
    assert_eq!(rt; left, 0);
    assert_eq!(rt; written.as_slice(), LISTING);
    Ok(())
}

#[test]
fn a_comment_of_any_bytes(rt: HostRuntime) -> Result<(), Fail> {
    let file = b"mixedcells 1\ndim 1#\x00\xFF\x80\nsupport 2\n0 : 0\n2 : 1\nend\n";
    let (status, left, written) = ended(&rt, rt.alloc(), "plain", file, 0, 0)?;
    assert_eq!(rt; status, 0);
    assert_eq!(rt; left, 0);
    assert_eq!(rt; written.as_slice(), LISTING);
    Ok(())
}

#[test]
fn a_halt_in_one_of_many(rt: HostRuntime) -> Result<(), Fail> {
    let rows: [(&str, &[u8], u8, &[u8]); 2] = [
        (
            "list",
            TWO_LEVEL,
            4,
            b"tie: cell 3 4 at 7 / 1 points 1 1 1 2\n",
        ),
        (
            "list",
            LONG_EDGES,
            5,
            b"overflow: cell 3 4 3 5 3 6 3 7 3 8 3 9 3 10\n",
        ),
    ];
    let numbers = [" --searchers 1", " --searchers 2", " --searchers 8"];
    for (command, file, want, text) in rows {
        for number in numbers {
            let mut line = String::from_str(rt.alloc(), command)?;
            line.push_str(number)?;
            let (status, left, written) = ended(&rt, rt.alloc(), &line, file, 0, 0)?;
            assert_eq!(rt; status, want);
            assert_eq!(rt; left, 0);
            assert_eq!(rt; written.as_slice(), text);
        }
    }
    Ok(())
}

#[test]
fn the_first_write_fails_after_a_tie(rt: HostRuntime) -> Result<(), Fail> {
    for line in ["list", "list --searchers 2", "list --searchers 8"] {
        let (status, left, written) = ended(&rt, rt.alloc(), line, TWO_LEVEL, 0, 1)?;
        assert_eq!(rt; status, 7);
        assert_eq!(rt; left, 0);
        assert_eq!(rt; written.as_slice(), b"".as_slice());
    }
    Ok(())
}
