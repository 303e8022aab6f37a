// Systems as text, their supports and their first faults.
use crate::{System, read_system};
use std::alloc::Global;
use std::test::Fail;
use support_text::TextFault;

// The exponents of each point, 99 behind each point and 77 behind each support.
fn numbers_of(alloc: Global, system: System) -> Result<Vec<i128>, Fail> {
    let mut all = Vec::new(alloc);
    for support in system.into_supports() {
        for point in support {
            all.extend_from_slice(point.as_slice())?;
            all.push(99)?;
        }
        all.push(77)?;
    }
    Ok(all)
}

fn supports(alloc: Global, text: &str) -> Result<Vec<i128>, Fail> {
    match read_system(alloc, text.as_bytes()) {
        Ok(system) => numbers_of(alloc, system),
        Err(_fault) => Err(Fail::from("no system")),
    }
}

// The line and the kind of the first fault; 0 and 0 where there is none.
fn fault(alloc: Global, text: &str) -> Result<(u64, u8), Fail> {
    match read_system(alloc, text.as_bytes()) {
        Ok(_system) => Ok((0, 0)),
        Err(TextFault::Format(fault)) => Ok((fault.line, fault.kind)),
        Err(TextFault::OutOfMemory) => Err(Fail::from("out of memory")),
    }
}

#[test]
fn three_sums(rt: HostRuntime) -> Result<(), Fail> {
    let text = "system 3\nx1 + x2 + x3\nx1*x2 + x2*x3 + x3*x1\nx1*x2*x3 - 1\n";
    let found = supports(rt.alloc(), text)?;
    let want: [i128; 35] = [
        0, 0, 1, 99, 0, 1, 0, 99, 1, 0, 0, 99, 77, 0, 1, 1, 99, 1, 0, 1, 99, 1, 1, 0, 99, 77, 0, 0,
        0, 99, 1, 1, 1, 99, 77,
    ];
    assert_eq!(rt; found.as_slice(), want.as_slice());
    Ok(())
}

// katsura in three unknowns
#[test]
fn katsura(rt: HostRuntime) -> Result<(), Fail> {
    let text =
        "system 3\nx1 + 2*x2 + 2*x3 - 1\nx1^2 + 2*x2^2 + 2*x3^2 - x1\n2*x1*x2 + 2*x2*x3 - x2\n";
    let found = supports(rt.alloc(), text)?;
    let want: [i128; 47] = [
        0, 0, 0, 99, 0, 0, 1, 99, 0, 1, 0, 99, 1, 0, 0, 99, 77, 0, 0, 2, 99, 0, 2, 0, 99, 1, 0, 0,
        99, 2, 0, 0, 99, 77, 0, 1, 0, 99, 0, 1, 1, 99, 1, 1, 0, 99, 77,
    ];
    assert_eq!(rt; found.as_slice(), want.as_slice());
    Ok(())
}

#[test]
fn one_point_is_left(rt: HostRuntime) -> Result<(), Fail> {
    let texts = [
        "system 1\n(x1 + 1)*(x1 - 1) - x1^2",
        "# a note\n system 1 # the dimension\n\n-x1^0 # 0 - 1\n\n",
        "system 1\n7\n",
        "system 1\r\n(x1 - x1)^0\r\n",
        "system 1\nx01^-3*x1^3",
        "system 1\n(2 - 1)^16 + (x1 - 1)^0",
    ];
    for text in texts {
        let found = supports(rt.alloc(), text)?;
        assert_eq!(rt; found.as_slice(), [0, 99, 77].as_slice());
    }
    Ok(())
}

#[test]
fn negative_exponents_and_powers(rt: HostRuntime) -> Result<(), Fail> {
    let found = supports(rt.alloc(), "system 1\nx1^-3 + x1 ^ - 1000000 + (x1 + 1)^2")?;
    let want: [i128; 11] = [-1_000_000, 99, -3, 99, 0, 99, 1, 99, 2, 99, 77];
    assert_eq!(rt; found.as_slice(), want.as_slice());
    Ok(())
}

#[test]
fn first_faults(rt: HostRuntime) -> Result<(), Fail> {
    let table = [
        ("", 1, 26),
        ("system 2\nx1\n# end", 4, 26),
        ("system 17\n", 1, 21),
        ("system 0\n", 1, 21),
        ("system\n", 1, 21),
        ("system 1 1\n", 1, 21),
        ("System 1\n", 1, 21),
        ("system 1\nx1\nx1", 3, 27),
        ("system 1\nx1 - x1", 2, 25),
        ("system 1\nx1^", 2, 22),
        ("system 1\nx2", 2, 23),
        ("system 1\n2^17", 2, 23),
        ("system 1\n9000000000000000000^3", 2, 24),
        ("system 1\nx0", 2, 23),
        ("system 1\nx 1", 2, 22),
        ("system 1\n2 x1", 2, 22),
        ("system 1\nx1^2^3", 2, 22),
        ("system 1\n- - x1", 2, 22),
        ("system 1\n(x1", 2, 22),
        ("system 1\nx1)", 2, 22),
        ("system 1\n()", 2, 22),
        ("system 1\nx1 : 2", 2, 22),
        ("system 1\nx1^+2", 2, 22),
        ("system 1\n2^-1", 2, 23),
        ("system 1\n(x1)^-1", 2, 23),
        ("system 1\nx1^1000001", 2, 23),
        ("system 1\nx1^1000000*x1", 2, 24),
        ("system 1\nx1^1000000*x1 + x2", 2, 23),
        ("system 1\n170141183460469231731687303715884105727", 0, 0),
        ("system 1\n170141183460469231731687303715884105728", 2, 23),
        (
            "system 1\n170141183460469231731687303715884105727 + 1",
            2,
            24,
        ),
        (
            "system 1\n-170141183460469231731687303715884105727 - 1",
            2,
            24,
        ),
        ("system 2\nx1 -\nx3", 2, 22),
        ("system 1\n(x1^1000000 - x1^1000000)*x1", 2, 25),
    ];
    for (text, line, kind) in table {
        let found = fault(rt.alloc(), text)?;
        assert_eq!(rt; found, (line, kind));
    }
    Ok(())
}

// Parentheses around a variable.
fn nested(alloc: Global, depth: usize) -> Result<Vec<u8>, Fail> {
    let mut text = Vec::from_slice(alloc, b"system 1\n")?;
    for _ in 0..depth {
        text.push(b'(')?;
    }
    text.extend_from_slice(b"x1")?;
    for _ in 0..depth {
        text.push(b')')?;
    }
    Ok(text)
}

fn kind_of(alloc: Global, text: &[u8]) -> u8 {
    match read_system(alloc, text) {
        Ok(_system) => 0,
        Err(TextFault::Format(fault)) => fault.kind,
        Err(TextFault::OutOfMemory) => 1,
    }
}

#[test]
fn open_parentheses(rt: HostRuntime) -> Result<(), Fail> {
    let text = nested(rt.alloc(), 64)?;
    assert_eq!(rt; kind_of(rt.alloc(), text.as_slice()), 0);
    let text = nested(rt.alloc(), 65)?;
    assert_eq!(rt; kind_of(rt.alloc(), text.as_slice()), 24);
    Ok(())
}

#[test]
fn collected_like_terms(rt: HostRuntime) -> Result<(), Fail> {
    // 816 terms
    let text = "system 3\n(x1 + x2 + x3 + 1)^15\nx1\nx2\n";
    assert_eq!(rt; kind_of(rt.alloc(), text.as_bytes()), 0);
    // 969 terms
    let text = "system 3\n(x1 + x2 + x3 + 1)^16\nx1\nx2\n";
    assert_eq!(rt; kind_of(rt.alloc(), text.as_bytes()), 0);
    // 3876 terms
    let text = "system 4\n(x1 + x2 + x3 + x4 + 1)^15\nx1\nx2\nx3\n";
    assert_eq!(rt; kind_of(rt.alloc(), text.as_bytes()), 24);
    // a partial sum is past the bound, the whole sum isn't
    let text = "system 1\n(170141183460469231731687303715884105727*x1 + 1)*(x1 + 1) + 1";
    assert_eq!(rt; kind_of(rt.alloc(), text.as_bytes()), 24);
    Ok(())
}

// 1 + x1 + .. + x1^999
fn thousand_terms(text: &mut Vec<u8>) -> Result<(), Fail> {
    text.extend_from_slice(b"((1 + x1)*(1 + x1^2)*(1 + x1^4)")?;
    text.extend_from_slice(b"*(1 + x1^8 + x1^16 + x1^24 + x1^32)")?;
    text.extend_from_slice(b"*(1 + x1^40 + x1^80 + x1^120 + x1^160)")?;
    text.extend_from_slice(b"*(1 + x1^200 + x1^400 + x1^600 + x1^800))")?;
    Ok(())
}

#[test]
fn a_thousand_terms(rt: HostRuntime) -> Result<(), Fail> {
    let mut text = Vec::from_slice(rt.alloc(), b"system 1\n")?;
    thousand_terms(&mut text)?;
    assert_eq!(rt; kind_of(rt.alloc(), text.as_slice()), 0);
    // 1,000,000 products, which make 1,999 terms
    text.push(b'*')?;
    thousand_terms(&mut text)?;
    assert_eq!(rt; kind_of(rt.alloc(), text.as_slice()), 24);
    Ok(())
}
