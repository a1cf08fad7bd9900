// Records with a fault, for points that start at (1, 1, 1): the line that tells it, and that the table is as it was.
use crate::drafts::{MARKED, at, draft_of};
use sheet::Point;
use std::alloc::Global;
use std::process::Abort;
use std::test::Fail;
use step::lay;

const CASES: [(&[u8], &str); 25] = [
    (b"", "fault 8 step 0 0"),
    (b"\x00", "fault 8 step 1 0"),
    (b"\x08", "fault 9 step 0 0"),
    (b"\xff", "fault 9 step 0 0"),
    (b"\x00\x08", "fault 9 step 1 0"),
    (b"\x01", "fault 8 step 0 1"),
    (b"\x01\x05", "fault 8 step 0 1"),
    (b"\x02", "fault 8 step 0 2"),
    (b"\x03\x01\x00", "fault 8 step 0 2"),
    (b"\x04\x01", "fault 8 step 0 3"),
    (b"\x07\x01\x00\x01\x00\x01", "fault 8 step 0 3"),
    (b"\x00\x04\x01", "fault 8 step 1 3"),
    (b"\x01\x00\x00", "fault 10 step 0 1"),
    (b"\x02\x00\x00", "fault 10 step 0 2"),
    (b"\x04\x00\x00", "fault 10 step 0 3"),
    (b"\x03\x00\x00", "fault 10 step 0 1"),
    (b"\x01\x00\x10", "fault 11 step 0 1"),
    (b"\x02\x00\x10", "fault 11 step 0 2"),
    (b"\x04\x00\x10", "fault 11 step 0 3"),
    (b"\x01\xfe\xef", "fault 11 step 0 1"),
    (b"\x02\xff\x7f", "fault 11 step 0 2"),
    (b"\x04\x00\x80", "fault 11 step 0 3"),
    (b"\x00\x00\x00", "fault 12 step 0 0"),
    (b"\x00\x04\xfe\xff\x00", "fault 12 step 0 0"),
    (b"\x04\xfe\xff\x00\x00", "fault 12 step 0 0"),
];

#[test]
fn faults_are_told_and_the_table_kept(rt: HostRuntime) -> Result<(), Fail> {
    for (bytes, told) in CASES.iter() {
        refuses(&rt, rt.alloc(), bytes, told)?;
    }
    Ok(())
}

fn refuses(rt: &impl Abort, heap: Global, bytes: &[u8], told: &str) -> Result<(), Fail> {
    let draft = draft_of(2)?;
    let row = Point {
        start: at(1, 1, 1),
        end: at(2, 3, 4),
    };
    let mut points = [row, row, MARKED];
    match lay(&draft, bytes, &mut points) {
        Ok(()) => panic!(rt; "accepted: {told}"),
        Err(fault) => {
            let line = fault.notice().to_string(heap)?;
            assert_eq!(rt; line.as_str(), told);
        }
    }
    assert_eq!(rt; points[0], row, "{told}");
    assert_eq!(rt; points[1], row, "{told}");
    assert_eq!(rt; points[2], MARKED, "{told}");
    Ok(())
}

#[test]
fn a_table_one_row_short(rt: HostRuntime) -> Result<(), Fail> {
    let draft = draft_of(2)?;
    let mut points = [MARKED];
    match lay(&draft, b"", &mut points) {
        Ok(()) => return Err(Fail::new("the table is accepted")),
        Err(fault) => assert!(rt;
            fault.notice().to_string(rt.alloc())?.as_str() == "fault 13 step 0 0"
        ),
    }
    assert_eq!(rt; points[0], MARKED);
    Ok(())
}
