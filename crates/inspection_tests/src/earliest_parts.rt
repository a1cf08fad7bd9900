// Earliest parts at several depths, and their refusals, which are those of windows.
use crate::plans::{Plan, crossing, open, tables, turning};
use filters::{DELIVERED, Earliest};
use inspection::{VfName, WindowFault};
use motion::Kind;
use sheet::Face;
use std::test::Fail;

fn first(part: u8, put: u8) -> Earliest {
    let part = Some(part);
    Earliest { part, put }
}

#[test]
fn at_depths(rt: HostRuntime) -> Result<(), Fail> {
    let (mut vf, mut ee) = tables();
    let mut inspected = open(crossing()?, DELIVERED, 0, &mut vf, &mut ee)?;
    let _ = inspected.offer(0, 1);
    let name = VfName { point: 3, face: 0 };
    let mut entry = 6;
    for i in 0..6u32 {
        if inspected.vf_entry(i) == Some(name) {
            entry = i;
        }
    }
    inspected.expect_earliest(&rt, Kind::Vf, entry, Ok(first(0, 1)));
    let _ = inspected.set_depth(1);
    inspected.expect_earliest(&rt, Kind::Vf, entry, Ok(first(0, 1)));
    let _ = inspected.set_depth(2);
    inspected.expect_earliest(&rt, Kind::Vf, entry, Ok(first(1, 2)));
    let _ = inspected.set_depth(6);
    inspected.expect_earliest(&rt, Kind::Vf, entry, Ok(first(31, 32)));
    Ok(())
}

#[test]
fn absent_where_deeper_strikes(rt: HostRuntime) -> Result<(), Fail> {
    let (mut vf, mut ee) = tables();
    let mut inspected = open(turning()?, DELIVERED, 0, &mut vf, &mut ee)?;
    let _ = inspected.offer(0, 1);
    let name = VfName { point: 3, face: 0 };
    let mut entry = 6;
    for i in 0..6u32 {
        if inspected.vf_entry(i) == Some(name) {
            entry = i;
        }
    }
    inspected.expect_earliest(&rt, Kind::Vf, entry, Ok(first(0, 1)));
    let _ = inspected.set_depth(1);
    let (part, put) = (None, 2);
    inspected.expect_earliest(&rt, Kind::Vf, entry, Ok(Earliest { part, put }));
    Ok(())
}

#[test]
fn refused(rt: HostRuntime) -> Result<(), Fail> {
    let Plan {
        draft: _draft,
        points,
        faces,
    } = crossing()?;
    let (mut vf, mut ee) = tables();
    let mut inspected = open(crossing()?, DELIVERED, 2, &mut vf, &mut ee)?;
    let _ = inspected.offer(0, 1);
    let too_short = WindowFault::TableTooShort;
    inspected.expect_earliest_fault(&rt, &points[..5], &faces, Kind::Vf, 0, too_short);
    inspected.expect_earliest_fault(&rt, &points, &faces[..1], Kind::Ee, 0, too_short);
    inspected.expect_earliest(&rt, Kind::Vf, 1, Err(WindowFault::NoSuchEntry(1)));
    inspected.expect_earliest(&rt, Kind::Ee, 0, Err(WindowFault::NoSuchEntry(0)));
    let strays = Face { a: 0, b: 1, c: 6 };
    let tables = [strays, faces[1]];
    let not_of_the_sheet = WindowFault::NotOfTheSheet(0);
    inspected.expect_earliest_fault(&rt, &points, &tables, Kind::Vf, 0, not_of_the_sheet);
    Ok(())
}
