// Runs of `poly`.
use crate::tests::{run, run_line};
use std::test::Fail;

// The Katsura system of three variables.
const KATSURA: &[u8] =
    b"system 3\nx1 + 2*x2 + 2*x3 - 1\nx1^2 + 2*x2^2 + 2*x3^2 - x1\n2*x1*x2 + 2*x2*x3 - x2\n";

#[test]
fn systems_and_their_faults(rt: HostRuntime) -> Result<(), Fail> {
    let rows: [(&[u8], u8, &[u8]); 8] = [
        (
            b"system 1\n(x1 + 1)*(x1 - 1) - x1^2\n",
            0,
            b"mixedcells 1\ndim 1\nsupport 1\n0 : 7100271\nend\n",
        ),
        (
            b"system 3\nx1 + x2 + x3\nx1*x2 + x2*x3 + x3*x1\nx1*x2*x3 - 1\n",
            0,
            b"mixedcells 1\ndim 3\nsupport 3\n0 0 1 : 7100271\n0 1 0 : 8546438\n1 0 0 : 10877665\nsupport 3\n0 1 1 : 6423381\n1 0 1 : 13345398\n1 1 0 : 8397185\nsupport 2\n0 0 0 : 9293493\n1 1 1 : 1097553\nend\n",
        ),
        (
            KATSURA,
            0,
            b"mixedcells 1\ndim 3\nsupport 4\n0 0 0 : 7100271\n0 0 1 : 8546438\n0 1 0 : 10877665\n1 0 0 : 6423381\nsupport 4\n0 0 2 : 13345398\n0 2 0 : 8397185\n1 0 0 : 9293493\n2 0 0 : 1097553\nsupport 3\n0 1 0 : 14088266\n0 1 1 : 3329271\n1 1 0 : 12511875\nend\n",
        ),
        (b"system 1\nx1 - x1\n", 3, b"format: line 2 kind 25\n"),
        (b"system 1\nx1^\n", 3, b"format: line 2 kind 22\n"),
        (b"system 1\nx2\n", 3, b"format: line 2 kind 23\n"),
        (b"system 1\n2^17\n", 3, b"format: line 2 kind 23\n"),
        (
            b"system 1\n9000000000000000000^3\n",
            3,
            b"format: line 2 kind 24\n",
        ),
    ];
    for (system, want, text) in rows {
        let (status, written) = run(rt.alloc(), "poly", system)?;
        assert_eq!(rt; status, want);
        assert_eq!(rt; written.as_slice(), text);
    }
    Ok(())
}

#[test]
fn poly_takes_a_seed(rt: HostRuntime) -> Result<(), Fail> {
    let rows = ["poly", "poly --seed 0", "poly --seed=18446744073709551615"];
    for line in rows {
        let (status, written, left) = run_line(rt.alloc(), line)?;
        assert_eq!(rt; status, 3);
        assert_eq!(rt; written.as_slice(), b"format: line 1 kind 21\n".as_slice());
        assert_eq!(rt; left, 0);
    }
    Ok(())
}

#[test]
fn powers_of_a_system(rt: HostRuntime) -> Result<(), Fail> {
    let (status, file) = run(rt.alloc(), "poly", KATSURA)?;
    assert_eq!(rt; status, 0);
    let (status, listing) = run(rt.alloc(), "list", &file)?;
    assert_eq!(rt; status, 0);
    let (status, powers) = run(rt.alloc(), "powers", &listing)?;
    assert_eq!(rt; status, 0);
    assert_eq!(rt;
        powers.as_slice(),
        b"homotopies 1\ncell 1 4 2 4 2 3 : 1\npowers 0 11305661 804468 0\npowers 30613053 0 7519050 0\npowers 899501 0 0\nend\n".as_slice()
    );
    Ok(())
}
