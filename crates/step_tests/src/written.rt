// The records that tables have, and what else the writer answers.
use crate::drafts::{MARKED, at, draft_of};
use sheet::{Coords, Point};
use std::process::Abort;
use std::test::Fail;
use step::write;

/// Checks the record of one point that goes from `start` to `end`, and that further bytes are as they were.
fn writes(rt: &impl Abort, start: Coords, end: Coords, record: &[u8]) -> Result<(), Fail> {
    let draft = draft_of(1)?;
    let mut out = [0xaau8; 9];
    match write(&draft, &[Point { start, end }, MARKED], &mut out) {
        Ok(len) => assert_eq!(rt; len, record.len()),
        Err(_) => return Err(Fail::new("the table is refused")),
    }
    for (i, byte) in out.iter().enumerate() {
        assert_eq!(rt; *byte, record.get(i).copied().unwrap_or(0xaa), "{}", i);
    }
    Ok(())
}

#[test]
fn records(rt: HostRuntime) -> Result<(), Fail> {
    writes(&rt, at(1, 1, 1), at(1, 1, -1), b"\x04\xfe\xff")?;
    writes(&rt, at(1, 1, 1), at(1, 1, 1), b"\x00")?;
    writes(
        &rt,
        at(0, 0, 0),
        at(1, 256, -256),
        b"\x07\x01\x00\x00\x01\x00\xff",
    )?;
    writes(
        &rt,
        at(-4096, 4096, 0),
        at(4096, -4096, 0),
        b"\x03\x00\x20\x00\xe0",
    )?;
    writes(&rt, at(5000, -32768, 0), at(32767, -4096, 0), b"\x00")?;
    writes(
        &rt,
        at(5000, 0, 0),
        at(-5000, 0, 1),
        b"\x05\x00\xe0\x01\x00",
    )
}

#[test]
fn refusals(rt: HostRuntime) -> Result<(), Fail> {
    let row = Point {
        start: at(0, 0, 0),
        end: at(1, 0, 0),
    };
    let mut out = [0xaau8; 5];
    match write(&draft_of(2)?, &[row], &mut out) {
        Ok(_) => return Err(Fail::new("a short table is accepted")),
        Err(fault) => assert!(rt;
            fault.notice().to_string(rt.alloc())?.as_str() == "fault 13 writer 0 0"
        ),
    }
    match write(&draft_of(2)?, &[row, row], &mut out) {
        Ok(_) => return Err(Fail::new("a short output is accepted")),
        Err(fault) => assert!(rt;
            fault.notice().to_string(rt.alloc())?.as_str() == "fault 14 writer 0 0"
        ),
    }
    for byte in out.iter() {
        assert_eq!(rt; *byte, 0xaa);
    }
    Ok(())
}
