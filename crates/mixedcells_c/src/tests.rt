use crate::mixedcells_run;
use std::test::Fail;

const SEGMENT: &[u8] = b"mixedcells 1\ndim 1\nsupport 2\n0 : 0\n2 : 1\nend\n";

const CELLS: &[u8] = b"cells 1\ncell 1 2 : -1 / 2\nend\n";

#[test]
fn answers_stand_in_front(rt: HostRuntime) -> Result<(), Fail> {
    let mut listing = SEGMENT.to_vec(rt.alloc())?;
    listing.extend_from_slice(CELLS)?;
    let rows: [(&[u8], &[u8], u32, &[u8]); 10] = [
        (b"list", SEGMENT, 0, &listing),
        (b"plain", SEGMENT, 0, &listing),
        (b"check", &listing, 0, b"yes\n"),
        (
            b"make scatter 1 1 0",
            b"",
            0,
            b"mixedcells 1\ndim 1\nsupport 1\n0 : 7100271\nend\n",
        ),
        (
            b"poly",
            b"system 1\n(x1 + 1)*(x1 - 1) - x1^2\n",
            0,
            b"mixedcells 1\ndim 1\nsupport 1\n0 : 7100271\nend\n",
        ),
        (
            b"poly",
            b"system 1\nx1 - x1\n",
            3,
            b"format: line 2 kind 25\n",
        ),
        (b"list", b"", 3, b"format: line 1 kind 8\n"),
        (b"list --searchers 2", SEGMENT, 11, b""),
        (b"lists", SEGMENT, 2, b"usage\n"),
        (b"pl\xffin", SEGMENT, 2, b"usage\n"),
    ];
    for (command, input, want, text) in rows {
        let mut room = vec![in rt.alloc(); b'~'; 100]?;
        let mut needed = 0;
        let status = mixedcells_run(rt.alloc(), command, input, &mut room, &mut needed);
        assert_eq!(rt; status, want);
        assert_eq!(rt; needed, text.len());
        assert!(rt; room.starts_with(text));
        assert!(rt; room[text.len().min(100)..].iter().all(|b| *b == b'~'));
    }
    Ok(())
}

#[test]
fn an_answer_without_room(rt: HostRuntime) -> Result<(), Fail> {
    let mut room = [b'~'; 5];
    let mut needed = 0;
    let status = mixedcells_run(rt.alloc(), b"lists", b"", &mut room, &mut needed);
    assert_eq!(rt; status, 256);
    assert_eq!(rt; needed, 6);
    assert_eq!(rt; room, [b'~'; 5]);
    Ok(())
}
