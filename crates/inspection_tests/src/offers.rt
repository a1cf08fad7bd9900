// What offers list and count.
use crate::nothing::Nothing;
use crate::plans::{Inspected, crossing, hinged, open, tables, tally};
use filters::DELIVERED;
use inspection::{Counts, Marked, VfName};
use sheet::Face;
use std::test::Fail;

#[test]
fn once_again_and_swapped(rt: HostRuntime) -> Result<(), Fail> {
    let (mut vf, mut ee) = tables();
    let mut inspected = open(crossing()?, DELIVERED, 2, &mut vf, &mut ee)?;
    inspected.expect_offer(&rt, 0, 1, Ok(()));
    inspected.expect_vf_entry(&rt, 0, VfName { point: 3, face: 0 });
    inspected.expect_counts(&rt, tally(1, 5, 0, 0), tally(0, 9, 0, 0));
    inspected.expect_offer(&rt, 0, 1, Ok(()));
    inspected.expect_offer(&rt, 1, 0, Ok(()));
    inspected.expect_lens(&rt, 1, 0);
    let Inspected { inspection, .. } = inspected;
    let (vf, ee) = (tally(1, 15, 0, 2), tally(0, 27, 0, 0));
    assert_eq!(rt; inspection.close().counts(), Counts { vf, ee });
    Ok(())
}

#[test]
fn another_filter(rt: HostRuntime) -> Result<(), Fail> {
    let (mut vf, mut ee) = tables();
    let mut inspected = open(crossing()?, Nothing, 2, &mut vf, &mut ee)?;
    let _ = inspected.offer(0, 1);
    inspected.expect_lens(&rt, 6, 9);
    inspected.expect_vf_entry(&rt, 0, VfName { point: 0, face: 1 });
    inspected.expect_vf_entry(&rt, 3, VfName { point: 3, face: 0 });
    inspected.expect_counts(&rt, tally(6, 0, 0, 0), tally(9, 0, 0, 0));
    Ok(())
}

#[test]
fn a_common_edge(rt: HostRuntime) -> Result<(), Fail> {
    let (mut vf, mut ee) = tables();
    let mut inspected = open(hinged()?, Nothing, 0, &mut vf, &mut ee)?;
    let _ = inspected.offer(0, 1);
    let _ = inspected.offer(1, 0);
    inspected.expect_counts(&rt, tally(2, 0, 8, 2), tally(2, 0, 14, 2));
    Ok(())
}

#[test]
fn a_point_twice(rt: HostRuntime) -> Result<(), Fail> {
    let mut plan = crossing()?;
    plan.faces[1] = Face { a: 3, b: 3, c: 4 };
    let (mut vf, mut ee) = ([Marked::default(); 5], [Marked::default(); 6]);
    let mut inspected = open(plan, Nothing, 0, &mut vf, &mut ee)?;
    inspected.expect_offer(&rt, 0, 1, Ok(()));
    inspected.expect_counts(&rt, tally(5, 0, 0, 1), tally(6, 0, 0, 3));
    Ok(())
}
