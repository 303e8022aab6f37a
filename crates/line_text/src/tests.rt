use crate::{BadNumber, Lines, Token, read_int, write_int};
use std::alloc::Global;
use std::test::Fail;

// The tokens of a source of less than ten lines and tokens a line: of each its line, its place and its text.
fn shown(alloc: Global, source: &[u8]) -> Result<Vec<u8>, Fail> {
    let mut out = Vec::new(alloc);
    let mut lines = Lines::new(source);
    for _ in 0..10 {
        let Some(mut line) = lines.next_line() else {
            return Ok(out);
        };
        for _ in 0..10 {
            if let Some(token) = line.next_token() {
                show(&mut out, &token)?;
            }
        }
    }
    Err(Fail::from("the source has more lines"))
}

fn show(out: &mut Vec<u8>, token: &Token) -> Result<(), Fail> {
    write_int(out, i128::from(token.line))?;
    out.push(b'@')?;
    write_int(out, token.start as i128)?;
    out.extend_from_slice(b"=")?;
    out.extend_from_slice(token.text)?;
    out.push(b' ')?;
    Ok(())
}

#[test]
fn lines_and_tokens(rt: HostRuntime) -> Result<(), Fail> {
    let table: [(&[u8], u64, &[u8]); 9] = [
        (b"", 1, b""),
        (b"\n \t\n# end\n", 4, b""),
        (b"dim 2", 2, b"1@0=dim 1@4=2 "),
        (b"a\nb\n", 3, b"1@0=a 2@2=b "),
        (b"a\rb c\r\r\n\r", 3, b"1@0=a\rb 1@4=c\r "),
        (b"a # \x00\xff\x80 b\nc#", 3, b"1@0=a 2@10=c "),
        (b"0:+0\r\n", 2, b"1@0=0 1@1=: 1@2=+0 "),
        (b"  2 : 01 # last\r\n", 2, b"1@2=2 1@4=: 1@6=01 "),
        (b"\n\n-7//2", 4, b"3@2=-7 3@4=/ 3@5=/ 3@6=2 "),
    ];
    for (source, end_line, tokens) in table {
        let found = shown(rt.alloc(), source)?;
        assert_eq!(rt; found.as_slice(), tokens);
        assert_eq!(rt; Lines::new(source).end_line(), end_line);
    }
    Ok(())
}

fn token(text: &[u8]) -> Token<'_> {
    Token {
        line: 1,
        start: 0,
        text,
    }
}

const ALL: i128 = i128::MAX;

#[test]
fn numbers_are_read(rt: HostRuntime) -> Result<(), Fail> {
    let table: [(&[u8], i128, i128, Result<i128, BadNumber>); 15] = [
        (b"0", 0, 0, Ok(0)),
        (b"+0", -1, 1, Ok(0)),
        (b"-0", -1, 1, Ok(0)),
        (b"01", 1, 16, Ok(1)),
        (b"16", 1, 16, Ok(16)),
        (b"17", 1, 16, Err(BadNumber::Outside)),
        (b"0", 1, 16, Err(BadNumber::Outside)),
        (b"1000000", -1_000_000, 1_000_000, Ok(1_000_000)),
        (b"1000001", -1_000_000, 1_000_000, Err(BadNumber::Outside)),
        (b"+", -ALL, ALL, Err(BadNumber::Spelling)),
        (b"-", -ALL, ALL, Err(BadNumber::Spelling)),
        (b"+-1", -ALL, ALL, Err(BadNumber::Spelling)),
        (b"--1", -ALL, ALL, Err(BadNumber::Spelling)),
        (b"1a", -ALL, ALL, Err(BadNumber::Spelling)),
        (b"\xff", -ALL, ALL, Err(BadNumber::Spelling)),
    ];
    for (text, min, max, want) in table {
        assert!(rt; min <= max);
        assert_eq!(rt; read_int(&token(text), min, max), want);
    }
    Ok(())
}

#[test]
fn greatest_numbers(rt: HostRuntime) {
    let table: [(&[u8], Result<i128, BadNumber>); 5] = [
        (b"170141183460469231731687303715884105727", Ok(ALL)),
        (
            b"170141183460469231731687303715884105728",
            Err(BadNumber::Outside),
        ),
        (b"-170141183460469231731687303715884105727", Ok(-ALL)),
        (
            b"-170141183460469231731687303715884105728",
            Err(BadNumber::Outside),
        ),
        (
            b"-170141183460469231731687303715884105729",
            Err(BadNumber::Outside),
        ),
    ];
    for (text, want) in table {
        assert_eq!(rt; read_int(&token(text), -ALL, ALL), want);
    }
}

#[test]
fn long_numbers(rt: HostRuntime) -> Result<(), Fail> {
    let nines = vec![in rt.alloc(); b'9'; 10_000]?;
    assert_eq!(rt;
        read_int(&token(&nines), -ALL, ALL),
        Err(BadNumber::Outside)
    );
    let mut zeros = vec![in rt.alloc(); b'0'; 10_000]?;
    zeros.push(b'7')?;
    assert_eq!(rt; read_int(&token(&zeros), 1, 7), Ok(7));
    Ok(())
}

#[test]
fn numbers_are_written(rt: HostRuntime) -> Result<(), Fail> {
    let mut out = b"cell".to_vec(rt.alloc())?;
    for value in [0, -1, 30, i128::MIN, i128::MAX] {
        out.push(b' ')?;
        let written = write_int(&mut out, value);
        assert!(rt; written.is_ok(), "out of memory");
    }
    let want =
        b"cell 0 -1 30 -170141183460469231731687303715884105728 170141183460469231731687303715884105727";
    assert_eq!(rt; out.as_slice(), want.as_slice());
    Ok(())
}
