// Runs by several searchers.
use crate::many::run;
use crate::tests::{LONG_EDGES, SQUARES, THREE_POINTS};
use crate::top::run_alone;
use edge_io::{MemorySink, MemorySource, NoGate};
use std::alloc::Global;
use std::sync::Wait;
use std::test::Fail;
use std::thread::Threads;

pub(crate) const TWO_LEVEL: &[u8] = b"mixedcells 1\ndim 1\nsupport 2\n0 : 7\n1 : 7\nend\n";

// These words.
pub(crate) fn words_of(alloc: Global, line: &str) -> Result<Vec<String>, Fail> {
    let mut words = Vec::new(alloc);
    for word in line.split(' ') {
        words.push(String::from_str(alloc, word)?)?;
    }
    Ok(words)
}

// A source of these bytes that doesn't fail.
fn source_of(alloc: Global, bytes: &[u8]) -> Result<MemorySource, Fail> {
    Ok(MemorySource::new(bytes.to_vec(alloc)?, 65_536, Vec::new(alloc)))
}

// An empty sink of which the calls with these numbers fail.
fn sink_of(alloc: Global, failing: &[u64]) -> Result<MemorySink, Fail> {
    match MemorySink::new(alloc, 65_536, 1000, failing.to_vec(alloc)?) {
        Ok(sink) => Ok(sink),
        Err(_) => Err(Fail::from("out of memory")),
    }
}

// The status of a run of these words on bytes, and what it wrote.
fn answer<R: Threads + Wait + Sync>(
    rt: &R,
    alloc: Global,
    line: &str,
    input: &[u8],
    failing: &[u64],
) -> Result<(u8, Vec<u8>), Fail> {
    let words = words_of(alloc, line)?;
    let mut source = source_of(alloc, input)?;
    let mut sink = sink_of(alloc, failing)?;
    let status = run(rt, alloc, &words, &mut source, &mut sink, &NoGate).status();
    let written = sink.bytes().to_vec(alloc)?;
    Ok((status, written))
}

#[test]
fn the_same_bytes_by_every_number_of_searchers(rt: HostRuntime) -> Result<(), Fail> {
    let rows: [(&str, &[u8], u8, &[u8]); 5] = [
        (
            "list",
            SQUARES,
            0,
            b"mixedcells 1\ndim 2\nsupport 4\n0 0 : 3\n1 0 : 10\n0 1 : 20\n1 1 : 90\nsupport 4\n0 0 : 5\n1 0 : 40\n0 1 : 9\n1 1 : 1\nend\ncells 2\ncell 1 2 1 4 : -7 11 / 1\ncell 1 3 3 4 : 8 -17 / 1\nend\n",
        ),
        ("sum", THREE_POINTS, 0, b"cells 2\ntree 5\n"),
        (
            "list",
            TWO_LEVEL,
            4,
            b"tie: cell 3 4 at 7 / 1 points 1 1 1 2\n",
        ),
        (
            "list",
            LONG_EDGES,
            5,
            b"overflow: cell 3 4 3 5 3 6 3 7 3 8 3 9 3 10\n",
        ),
        ("list", b"", 3, b"format: line 1 kind 8\n"),
    ];
    let numbers = [" --searchers 1", " --searchers=2", " --searchers 8"];
    for (command, file, want, text) in rows {
        for number in numbers {
            let mut line = String::from_str(rt.alloc(), command)?;
            line.push_str(number)?;
            let (status, written) = answer(&rt, rt.alloc(), &line, file, &[])?;
            assert_eq!(rt; status, want);
            assert_eq!(rt; written.as_slice(), text);
        }
    }
    Ok(())
}

#[test]
fn a_sink_that_fails_after_a_tie(rt: HostRuntime) -> Result<(), Fail> {
    for line in ["list", "list --searchers 2"] {
        let (status, written) = answer(&rt, rt.alloc(), line, TWO_LEVEL, &[1])?;
        assert_eq!(rt; status, 7);
        assert_eq!(rt; written.as_slice(), b"".as_slice());
    }
    Ok(())
}

#[test]
fn one_alone_leaves_a_team_untouched(rt: HostRuntime) -> Result<(), Fail> {
    let words = words_of(rt.alloc(), "list --searchers 2")?;
    let mut source = source_of(rt.alloc(), SQUARES)?;
    let mut sink = sink_of(rt.alloc(), &[])?;
    let status = run_alone(rt.alloc(), &words, &mut source, &mut sink).status();
    assert_eq!(rt; status, 11);
    assert_eq!(rt; sink.bytes(), b"".as_slice());
    Ok(())
}
