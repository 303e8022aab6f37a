use crate::top::run_alone;
use edge_io::{MemorySink, MemorySource, Source, SteadySource, read_all};
use std::alloc::Global;
use std::test::Fail;

pub(crate) const THREE_POINTS: &[u8] =
    b"mixedcells 1\ndim 1\nsupport 3\n0 : 0\n1 : -2\n3 : 0\nend\n";

pub(crate) const SEGMENT: &[u8] = b"mixedcells 1\ndim 1\nsupport 2\n0 : 0\n2 : 1\nend\n";

pub(crate) const SQUARES: &[u8] =
    b"mixedcells 1\ndim 2\nsupport 4\n0 0 : 3\n1 0 : 10\n0 1 : 20\n1 1 : 90\nsupport 4\n0 0 : 5\n1 0 : 40\n0 1 : 9\n1 1 : 1\nend\n";

// The same, moved by (-3, 2).
const MOVED_SQUARES: &[u8] =
    b"mixedcells 1\ndim 2\nsupport 4\n-3 2 : 3\n-2 2 : 10\n-3 3 : 20\n-2 3 : 90\nsupport 4\n-3 2 : 5\n-2 2 : 40\n-3 3 : 9\n-2 3 : 1\nend\n";

// Sixteen supports of the origin alone.
const SIXTEEN_ORIGINS: &[u8] =
    b"mixedcells 1\ndim 16\nsupport 1\n0 0 0 0 0 0 0 0 0 0 0 0 0 0 0 0 : 0\nsupport 1\n0 0 0 0 0 0 0 0 0 0 0 0 0 0 0 0 : 0\nsupport 1\n0 0 0 0 0 0 0 0 0 0 0 0 0 0 0 0 : 0\nsupport 1\n0 0 0 0 0 0 0 0 0 0 0 0 0 0 0 0 : 0\nsupport 1\n0 0 0 0 0 0 0 0 0 0 0 0 0 0 0 0 : 0\nsupport 1\n0 0 0 0 0 0 0 0 0 0 0 0 0 0 0 0 : 0\nsupport 1\n0 0 0 0 0 0 0 0 0 0 0 0 0 0 0 0 : 0\nsupport 1\n0 0 0 0 0 0 0 0 0 0 0 0 0 0 0 0 : 0\nsupport 1\n0 0 0 0 0 0 0 0 0 0 0 0 0 0 0 0 : 0\nsupport 1\n0 0 0 0 0 0 0 0 0 0 0 0 0 0 0 0 : 0\nsupport 1\n0 0 0 0 0 0 0 0 0 0 0 0 0 0 0 0 : 0\nsupport 1\n0 0 0 0 0 0 0 0 0 0 0 0 0 0 0 0 : 0\nsupport 1\n0 0 0 0 0 0 0 0 0 0 0 0 0 0 0 0 : 0\nsupport 1\n0 0 0 0 0 0 0 0 0 0 0 0 0 0 0 0 : 0\nsupport 1\n0 0 0 0 0 0 0 0 0 0 0 0 0 0 0 0 : 0\nsupport 1\n0 0 0 0 0 0 0 0 0 0 0 0 0 0 0 0 : 0\nend\n";

// One word.
fn word(alloc: Global, text: &str) -> Result<Vec<String>, Fail> {
    let mut words = Vec::new(alloc);
    words.push(String::from_str(alloc, text)?)?;
    Ok(words)
}

// The status of a run.
fn status_of<S: Source>(
    alloc: Global,
    words: &[String],
    source: &mut S,
    sink: &mut MemorySink,
) -> u8 {
    run_alone(alloc, words, source, sink).status()
}

// The status of a run of one word on bytes, and what it wrote.
pub(crate) fn run(alloc: Global, text: &str, input: &[u8]) -> Result<(u8, Vec<u8>), Fail> {
    let words = word(alloc, text)?;
    let mut source = SteadySource::new(input.to_vec(alloc)?);
    let Ok(mut sink) = MemorySink::new(alloc, 4096, 1000, Vec::new(alloc)) else {
        return Err(Fail::from("out of memory"));
    };
    let status = status_of(alloc, &words, &mut source, &mut sink);
    let written = sink.bytes().to_vec(alloc)?;
    Ok((status, written))
}

#[test]
fn listings_of_small_files(rt: HostRuntime) -> Result<(), Fail> {
    let rows: [(&[u8], &[u8]); 10] = [
        (
            THREE_POINTS,
            b"cells 2\ncell 1 2 : 2 / 1\ncell 2 3 : -1 / 1\nend\n",
        ),
        (
            b"mixedcells 1\ndim 1\nsupport 3\n0 : 0\n1 : 5\n3 : 0\nend\n",
            b"cells 1\ncell 1 3 : 0 / 1\nend\n",
        ),
        (SEGMENT, b"cells 1\ncell 1 2 : -1 / 2\nend\n"),
        (
            b"mixedcells 1\ndim 1\nsupport 1\n5 : 7\nend\n",
            b"cells 0\nend\n",
        ),
        (
            b"mixedcells 1\ndim 1\nsupport 2\n0 : 7\n1 : 7\nend\n",
            b"cells 1\ncell 1 2 : 0 / 1\nend\n",
        ),
        (
            b"mixedcells 1\ndim 1\nsupport 3\n0 : 0\n1 : 0\n2 : 0\nend\n",
            b"cells 0\nend\n",
        ),
        (
            SQUARES,
            b"cells 2\ncell 1 2 1 4 : -7 11 / 1\ncell 1 3 3 4 : 8 -17 / 1\nend\n",
        ),
        (
            b"mixedcells 1\ndim 1\nsupport 2\n0 : 0\n1000000 : 1\nend\n",
            b"cells 1\ncell 1 2 : -1 / 1000000\nend\n",
        ),
        (
            MOVED_SQUARES,
            b"cells 2\ncell 1 2 1 4 : -7 11 / 1\ncell 1 3 3 4 : 8 -17 / 1\nend\n",
        ),
        (SIXTEEN_ORIGINS, b"cells 0\nend\n"),
    ];
    for (file, cells) in rows {
        let (status, written) = run(rt.alloc(), "plain", file)?;
        let mut want = file.to_vec(rt.alloc())?;
        want.extend_from_slice(cells)?;
        assert_eq!(rt; status, 0);
        assert_eq!(rt; written.as_slice(), want.as_slice());
    }
    Ok(())
}

#[test]
fn odd_spelling_is_written_plainly(rt: HostRuntime) -> Result<(), Fail> {
    let odd =
        b"mixedcells 1\r\n# note\r\n\r\ndim\t1\r\nsupport 2\r\n0:+0\r\n  2 : 01 # last\r\nend";
    let (status, written) = run(rt.alloc(), "plain", odd)?;
    let (_, want) = run(rt.alloc(), "plain", SEGMENT)?;
    assert_eq!(rt; status, 0);
    assert_eq!(rt; written.as_slice(), want.as_slice());
    Ok(())
}

#[test]
fn refusals_by_their_lines(rt: HostRuntime) -> Result<(), Fail> {
    let rows: [(&[u8], u8, &[u8]); 9] = [
        (
            LONG_EDGES,
            5,
            b"overflow: cell 1 2 1 2 1 2 1 2 1 2 1 2 1 2\n",
        ),
        (
            b"mixedcells 1\ndim 1\nsupport 3\n",
            3,
            b"format: line 4 kind 8\n",
        ),
        (
            b"mixedcells 1\ndim 1\nsupport 2\n0 : 0\n0 : 1\nend\n",
            3,
            b"format: line 5 kind 6\n",
        ),
        (
            b"mixedcells 1\ndim 1\nsupport 2\n0 : 0\n2 : 1\nend\nmore\n",
            3,
            b"format: line 7 kind 9\n",
        ),
        (b"", 3, b"format: line 1 kind 8\n"),
        (
            b"mixedcells 1\ndim 1\nsupport 2\n0 : 0\n1000001 : 1\nend\n",
            3,
            b"format: line 5 kind 5\n",
        ),
        (
            b"mixedcells 1\ndim 17\nsupport 2\n0 : 0\n2 : 1\nend\n",
            3,
            b"format: line 2 kind 2\n",
        ),
        (
            b"mixedcells 1\ndim 2\nsupport 1\n0 0 : 0\nsupport 1\n0 0 : 0\nstart 0\nstart 1\nend\n",
            3,
            b"format: line 7 kind 7\n",
        ),
        (
            b"mixedcells 3\ndim 1\nsupport 1\n0 : 0\nend\n",
            3,
            b"format: line 1 kind 1\n",
        ),
    ];
    for (input, want, line) in rows {
        let (status, written) = run(rt.alloc(), "plain", input)?;
        assert_eq!(rt; status, want);
        assert_eq!(rt; written.as_slice(), line);
    }
    Ok(())
}

// Seven supports of the origin and one long edge each, along the axes, whose lengths have no common divisors.
pub(crate) const LONG_EDGES: &[u8] =
    b"mixedcells 1\ndim 7\nsupport 2\n0 0 0 0 0 0 0 : 0\n1000000 0 0 0 0 0 0 : 0\nsupport 2\n0 0 0 0 0 0 0 : 0\n0 999999 0 0 0 0 0 : 0\nsupport 2\n0 0 0 0 0 0 0 : 0\n0 0 999997 0 0 0 0 : 0\nsupport 2\n0 0 0 0 0 0 0 : 0\n0 0 0 999991 0 0 0 : 0\nsupport 2\n0 0 0 0 0 0 0 : 0\n0 0 0 0 999989 0 0 : 0\nsupport 2\n0 0 0 0 0 0 0 : 0\n0 0 0 0 0 999983 0 : 0\nsupport 2\n0 0 0 0 0 0 0 : 0\n0 0 0 0 0 0 999979 : 0\nend\n";

// Three level points, their heights perturbed.
pub(crate) const PERTURBED: &[u8] = b"mixedcells 2\ndim 1\nsupport 3\n0 : 0\n1 : 0\n2 : 0\nend\n";

#[test]
fn perturbed_points_are_listed_and_judged(rt: HostRuntime) -> Result<(), Fail> {
    let (status, listing) = run(rt.alloc(), "plain", PERTURBED)?;
    let mut want = PERTURBED.to_vec(rt.alloc())?;
    want.extend_from_slice(b"cells 2\ncell 1 2 : 0 / 1\ncell 2 3 : 0 / 1\nend\n")?;
    assert_eq!(rt; status, 0);
    assert_eq!(rt; listing.as_slice(), want.as_slice());
    let (status, answer) = run(rt.alloc(), "check", &listing)?;
    assert_eq!(rt; status, 0);
    assert_eq!(rt; answer.as_slice(), b"yes\n".as_slice());
    let mut wrong = PERTURBED.to_vec(rt.alloc())?;
    wrong.extend_from_slice(b"cells 1\ncell 1 3 : 0 / 1\nend\n")?;
    let (status, answer) = run(rt.alloc(), "check", &wrong)?;
    assert_eq!(rt; status, 1);
    assert_eq!(rt; answer.as_slice(), b"no: line 9 reason 4\n".as_slice());
    Ok(())
}

// Two supports of 46 points on one line each, so 1,035 pairs each.
fn many_choices(alloc: Global) -> Result<Vec<u8>, Fail> {
    let mut text = b"mixedcells 1\ndim 2\n".to_vec(alloc)?;
    for _support in 0..2 {
        text.extend_from_slice(b"support 46\n")?;
        for place in 0..46 {
            let line = format!(in alloc; "{place} 0 : 0\n")?;
            text.extend_from_slice(line.as_bytes())?;
        }
    }
    text.extend_from_slice(b"end\n")?;
    Ok(text)
}

#[test]
fn too_many_choices(rt: HostRuntime) -> Result<(), Fail> {
    let input = many_choices(rt.alloc())?;
    let (status, written) = run(rt.alloc(), "plain", &input)?;
    assert_eq!(rt; status, 10);
    assert_eq!(rt; written.as_slice(), b"too many: 1071225\n".as_slice());
    Ok(())
}

#[test]
fn a_failed_read_writes_nothing(rt: HostRuntime) -> Result<(), Fail> {
    let words = word(rt.alloc(), "plain")?;
    let failing = [1].to_vec(rt.alloc())?;
    let mut source = MemorySource::new(SEGMENT.to_vec(rt.alloc())?, 100, failing);
    let Ok(mut sink) = MemorySink::new(rt.alloc(), 100, 100, Vec::new(rt.alloc())) else {
        return Err(Fail::from("out of memory"));
    };
    let status = status_of(rt.alloc(), &words, &mut source, &mut sink);
    assert_eq!(rt; status, 6);
    assert_eq!(rt; sink.bytes(), b"".as_slice());
    Ok(())
}

#[test]
fn a_failed_write_leaves_a_prefix(rt: HostRuntime) -> Result<(), Fail> {
    let words = word(rt.alloc(), "plain")?;
    let mut source = SteadySource::new(SEGMENT.to_vec(rt.alloc())?);
    let failing = [3].to_vec(rt.alloc())?;
    let Ok(mut sink) = MemorySink::new(rt.alloc(), 1000, 4, failing) else {
        return Err(Fail::from("out of memory"));
    };
    let status = status_of(rt.alloc(), &words, &mut source, &mut sink);
    assert_eq!(rt; status, 7);
    assert_eq!(rt; sink.bytes(), b"mixedcel".as_slice());
    Ok(())
}

#[test]
fn input_past_the_limit_is_too_long(rt: HostRuntime) -> Result<(), Fail> {
    let rows: [(usize, u8, &[u8]); 2] = [
        (16_777_217, 9, b"too long\n"),
        (16_777_216, 3, b"format: line 2 kind 8\n"),
    ];
    for (length, want, line) in rows {
        let input = vec![in rt.alloc(); b'#'; length]?;
        let (status, written) = run(rt.alloc(), "plain", &input)?;
        assert_eq!(rt; status, want);
        assert_eq!(rt; written.as_slice(), line);
    }
    Ok(())
}

// The two squares with their start heights.
const STARTED: &[u8] =
    b"mixedcells 1\ndim 2\nsupport 4\n0 0 : 3\n1 0 : 10\n0 1 : 20\n1 1 : 90\nsupport 4\n0 0 : 5\n1 0 : 40\n0 1 : 9\n1 1 : 1\nstart 100\nstart 100\nend\n";

// The lines that `plain` writes behind them.
const CELLS: &[u8] = b"cells 2\ncell 1 2 1 4 : -7 11 / 1\ncell 1 3 3 4 : 8 -17 / 1\nend\n";

// The two squares with lines behind them.
fn squares_with(alloc: Global, lines: &[u8]) -> Result<Vec<u8>, Fail> {
    let mut text = STARTED.to_vec(alloc)?;
    text.extend_from_slice(lines)?;
    Ok(text)
}

#[test]
fn listings_are_judged_line_by_line(rt: HostRuntime) -> Result<(), Fail> {
    let (status, written) = run(rt.alloc(), "plain", STARTED)?;
    let listing = squares_with(rt.alloc(), CELLS)?;
    assert_eq!(rt; status, 0);
    assert_eq!(rt; written.as_slice(), listing.as_slice());
    let rows: [(&[u8], u8, &[u8]); 9] = [
        (CELLS, 0, b"yes\n"),
        (
            b"cells 2\ncell 1 2 1 4 : -7 12 / 1\ncell 1 3 3 4 : 8 -17 / 1\nend\n",
            1,
            b"no: line 17 reason 3\n",
        ),
        (
            b"cells 2\ncell 1 3 3 4 : 8 -17 / 1\ncell 1 2 1 4 : -7 11 / 1\nend\n",
            1,
            b"no: line 18 reason 1\n",
        ),
        (
            b"cells 2\ncell 1 2 1 4 : -14 22 / 2\ncell 1 3 3 4 : 8 -17 / 1\nend\n",
            1,
            b"no: line 17 reason 5\n",
        ),
        (
            b"cells 2\ncell 1 2 1 3 : -7 -4 / 1\ncell 1 3 3 4 : 8 -17 / 1\nend\n",
            1,
            b"no: line 17 reason 4\n",
        ),
        (
            b"cells 1\ncell 1 4 1 4 : 0 0 / 1\nend\n",
            1,
            b"no: line 17 reason 2\n",
        ),
        (
            b"cells 1\ncell 1 2 1 4 : 170141183460469231731687303715884105727 11 / 1\nend\n",
            5,
            b"overflow: line 17\n",
        ),
        (b"cells 0\nend\n", 0, b"yes\n"),
        (b"", 3, b"format: line 16 kind 8\n"),
    ];
    for (lines, want, line) in rows {
        let input = squares_with(rt.alloc(), lines)?;
        let (status, written) = run(rt.alloc(), "check", &input)?;
        assert_eq!(rt; status, want);
        assert_eq!(rt; written.as_slice(), line);
    }
    Ok(())
}

#[test]
fn powers_of_listed_cells(rt: HostRuntime) -> Result<(), Fail> {
    let rows: [(&[u8], &[u8], u8, &[u8]); 5] = [
        (
            THREE_POINTS,
            b"cells 2\ncell 1 2 : 2 / 1\ncell 2 3 : -1 / 1\nend\n",
            0,
            b"homotopies 2\ncell 1 2 : 1\npowers 0 0 6\ncell 2 3 : 1\npowers 3 0 0\nend\n",
        ),
        (
            SEGMENT,
            b"cells 1\ncell 1 2 : -1 / 2\nend\n",
            0,
            b"homotopies 1\ncell 1 2 : 1\npowers 0 0\nend\n",
        ),
        (
            PERTURBED,
            b"cells 2\ncell 1 2 : 0 / 1\ncell 2 3 : 0 / 1\nend\n",
            1,
            b"no: line 9 reason 6\n",
        ),
        (
            STARTED,
            b"cells 1\ncell 1 2 1 3 : -7 -4 / 1\nend\n",
            1,
            b"no: line 17 reason 4\n",
        ),
        (SEGMENT, b"", 3, b"format: line 7 kind 8\n"),
    ];
    for (file, cells, want, text) in rows {
        let mut input = file.to_vec(rt.alloc())?;
        input.extend_from_slice(cells)?;
        let (status, written) = run(rt.alloc(), "powers", &input)?;
        assert_eq!(rt; status, want);
        assert_eq!(rt; written.as_slice(), text);
    }
    Ok(())
}

// The words of a line.
fn words_of(alloc: Global, line: &str) -> Result<Vec<String>, Fail> {
    let mut words = Vec::new(alloc);
    for text in line.split_whitespace() {
        words.push(String::from_str(alloc, text)?)?;
    }
    Ok(words)
}

// The status of a run of a line's words, what it wrote, and how many bytes of five it left in the source.
pub(crate) fn run_line(alloc: Global, line: &str) -> Result<(u8, Vec<u8>, usize), Fail> {
    let words = words_of(alloc, line)?;
    let mut source = SteadySource::new(b"dim 1".to_vec(alloc)?);
    let Ok(mut sink) = MemorySink::new(alloc, 65_536, 65_536, Vec::new(alloc)) else {
        return Err(Fail::from("out of memory"));
    };
    let status = status_of(alloc, &words, &mut source, &mut sink);
    let written = sink.bytes().to_vec(alloc)?;
    let left = read_all(alloc, &mut source)?;
    Ok((status, written, left.len()))
}

#[test]
fn words_that_mean_nothing(rt: HostRuntime) -> Result<(), Fail> {
    let rows = [
        "",
        "list --searchers 0",
        "list --searchers 65",
        "list extra",
        "make scatter 1 3 1",
        "help",
        "-h",
        "--help",
        "--version",
        "--",
        "-- plain",
        "plain --",
        "plai",
        "Plain",
        "check extra",
        "poly extra",
        "poly --seed",
        "poly --seed -1",
        "poly --seed 1 --seed 1",
        "make",
        "make cyclic",
        "make cyclic 1",
        "make cyclic 17",
        "make cyclic +5",
        "make cyclic 000000000000000000005",
        "make cyclic 5 6",
        "make -- cyclic 5",
        "make cyclic 5 --",
        "make cyclic 5 --see 1",
        "make cyclic 5 -s 1",
        "make cyclic 5 --seed",
        "make cyclic 5 --seed -1",
        "make cyclic 5 --seed=",
        "make cyclic 5 --seed 18446744073709551616",
        "make --seed 1 cyclic 5 --seed 1",
        "make scatter 2 5 1",
    ];
    for line in rows {
        let (status, written, left) = run_line(rt.alloc(), line)?;
        assert_eq!(rt; status, 2);
        assert_eq!(rt; written.as_slice(), b"usage\n".as_slice());
        assert_eq!(rt; left, 5);
    }
    Ok(())
}

#[test]
fn make_takes_its_option_anywhere(rt: HostRuntime) -> Result<(), Fail> {
    let (_, want, _) = run_line(rt.alloc(), "make cyclic 5 --seed 7")?;
    let rows = [
        "make cyclic 5 --seed=7",
        "make cyclic --seed 7 5",
        "make cyclic --seed=7 5",
        "make --seed 7 cyclic 5",
        "make --seed=7 cyclic 5",
        "make cyclic 005 --seed=00000000000000000007",
        "make --seed 07 cyclic 00000000000000000005",
    ];
    for line in rows {
        let (status, written, left) = run_line(rt.alloc(), line)?;
        assert_eq!(rt; status, 0);
        assert_eq!(rt; written.as_slice(), want.as_slice());
        assert_eq!(rt; left, 5);
    }
    Ok(())
}

#[test]
fn one_scattered_point(rt: HostRuntime) -> Result<(), Fail> {
    let rows = ["make scatter 1 1 0 --seed 1", "make scatter 1 1 0"];
    for line in rows {
        let (status, written, left) = run_line(rt.alloc(), line)?;
        assert_eq!(rt; status, 0);
        assert_eq!(rt;
            written.as_slice(),
            b"mixedcells 1\ndim 1\nsupport 1\n0 : 7100271\nend\n".as_slice()
        );
        assert_eq!(rt; left, 5);
    }
    Ok(())
}

#[test]
fn the_least_and_the_greatest_numbers(rt: HostRuntime) -> Result<(), Fail> {
    let rows = [
        "make cyclic 2",
        "make cyclic 16",
        "make scatter 2 4 1",
        "make cyclic 5 --seed 0",
        "make cyclic 5 --seed=18446744073709551615",
    ];
    for line in rows {
        let (status, _, left) = run_line(rt.alloc(), line)?;
        assert_eq!(rt; status, 0);
        assert_eq!(rt; left, 5);
    }
    Ok(())
}
