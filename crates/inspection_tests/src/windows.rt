// Windows at several depths, and their refusals.
use crate::plans::{Plan, crossing, open, tables, turning};
use filters::DELIVERED;
use inspection::{VfName, WindowFault};
use motion::Kind;
use sheet::Face;
use std::test::Fail;

#[test]
fn at_depths(rt: HostRuntime) -> Result<(), Fail> {
    let (mut vf, mut ee) = tables();
    let mut inspected = open(crossing()?, DELIVERED, 2, &mut vf, &mut ee)?;
    let _ = inspected.offer(0, 1);
    inspected.expect_window(&rt, Kind::Vf, 0, Ok(Some((1, 2))));
    let _ = inspected.set_depth(6);
    inspected.expect_window(&rt, Kind::Vf, 0, Ok(Some((31, 32))));
    let _ = inspected.set_depth(0);
    inspected.expect_window(&rt, Kind::Vf, 0, Ok(Some((0, 0))));
    Ok(())
}

#[test]
fn absent_where_deeper_strikes(rt: HostRuntime) -> Result<(), Fail> {
    let (mut vf, mut ee) = tables();
    let mut inspected = open(turning()?, DELIVERED, 0, &mut vf, &mut ee)?;
    let _ = inspected.offer(0, 1);
    let mut entry = 6;
    for i in 0..6u32 {
        if inspected.vf_entry(i) == Some(VfName { point: 3, face: 0 }) {
            entry = i;
        }
    }
    inspected.expect_window(&rt, Kind::Vf, entry, Ok(Some((0, 0))));
    let _ = inspected.set_depth(1);
    inspected.expect_window(&rt, Kind::Vf, entry, Ok(None));
    Ok(())
}

#[test]
fn refused(rt: HostRuntime) -> Result<(), Fail> {
    let Plan {
        draft: _draft,
        points,
        faces,
    } = crossing()?;
    let (mut vf, mut ee) = tables();
    let mut inspected = open(crossing()?, DELIVERED, 2, &mut vf, &mut ee)?;
    let _ = inspected.offer(0, 1);
    let too_short = WindowFault::TableTooShort;
    inspected.expect_window_fault(&rt, &points[..5], &faces, Kind::Vf, 0, too_short);
    inspected.expect_window_fault(&rt, &points, &faces[..1], Kind::Ee, 0, too_short);
    inspected.expect_window(&rt, Kind::Vf, 1, Err(WindowFault::NoSuchEntry(1)));
    inspected.expect_window(&rt, Kind::Ee, 0, Err(WindowFault::NoSuchEntry(0)));
    let strays = Face { a: 0, b: 1, c: 6 };
    let not_of_the_sheet = WindowFault::NotOfTheSheet(0);
    inspected.expect_window_fault(
        &rt,
        &points,
        &[strays, faces[1]],
        Kind::Vf,
        0,
        not_of_the_sheet,
    );
    Ok(())
}
