// Records with no fault: the ends that they give, and that starts and further rows are as they were.
use crate::drafts::{MARKED, ZERO, at, draft_of};
use sheet::{Coords, Point};
use std::process::Abort;
use std::test::Fail;
use step::lay;

/// Lays `bytes` onto one point that starts at `start`, and checks that it then ends at `end`.
fn lays(rt: &impl Abort, start: Coords, bytes: &[u8], end: Coords) -> Result<(), Fail> {
    let draft = draft_of(1)?;
    let mut points = [Point { start, end: ZERO }, MARKED];
    match lay(&draft, bytes, &mut points) {
        Ok(()) => {}
        Err(_) => return Err(Fail::new("the record is refused")),
    }
    assert_eq!(rt; points[0], Point { start, end });
    assert_eq!(rt; points[1], MARKED);
    Ok(())
}

#[test]
fn ends(rt: HostRuntime) -> Result<(), Fail> {
    lays(&rt, at(1, 1, 1), b"\x00", at(1, 1, 1))?;
    lays(&rt, at(1, 1, 1), b"\x04\xfe\xff", at(1, 1, -1))?;
    lays(&rt, at(1, 1, 1), b"\x01\xff\x0f", at(4096, 1, 1))?;
    lays(&rt, at(1, 1, 1), b"\x02\xff\xef", at(1, -4096, 1))?;
    lays(
        &rt,
        at(1, 2, 3),
        b"\x07\x01\x00\x02\x00\xfd\xff",
        at(2, 4, 0),
    )?;
    lays(
        &rt,
        at(-4096, 4096, 0),
        b"\x03\x00\x20\x00\xe0",
        at(4096, -4096, 0),
    )
}

#[test]
fn starts_past_a_bound_count_as_the_bound(rt: HostRuntime) -> Result<(), Fail> {
    lays(&rt, at(5000, -5000, 32767), b"\x00", at(4096, -4096, 4096))?;
    lays(
        &rt,
        at(5000, -5000, 0),
        b"\x03\xff\xff\x01\x00",
        at(4095, -4095, 0),
    )
}
