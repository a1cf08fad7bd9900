// Lists with just enough places, and with one too few.
use crate::nothing::Nothing;
use crate::plans::{crossing, open, tables, tally};
use inspection::{EeName, Marked, OfferFault, VfName};
use std::process::Abort;
use std::test::Fail;

/// Offers two faces, all of whose tests are kept, to lists over these places; where that is refused,
/// all is as it was.
fn offer_to(
    rt: &impl Abort,
    vf_table: &mut [Marked<VfName>],
    ee_table: &mut [Marked<EeName>],
) -> Result<Result<(), OfferFault>, Fail> {
    let mut inspected = open(crossing()?, Nothing, 6, vf_table, ee_table)?;
    let answer = inspected.offer(0, 1);
    if answer.is_err() {
        inspected.expect_counts(rt, tally(0, 0, 0, 0), tally(0, 0, 0, 0));
        inspected.expect_lens(rt, 0, 0);
    }
    Ok(answer)
}

#[test]
fn enough(rt: HostRuntime) -> Result<(), Fail> {
    let (mut vf, mut ee) = tables();
    assert_eq!(rt; offer_to(&rt, &mut vf, &mut ee)?, Ok(()));
    Ok(())
}

#[test]
fn one_too_few(rt: HostRuntime) -> Result<(), Fail> {
    let stray = VfName { point: 7, face: 7 };
    let mut vf_table = [Marked::new(stray); 5];
    let answer = offer_to(&rt, &mut vf_table, &mut [Marked::default(); 9])?;
    assert_eq!(rt; answer, Err(OfferFault::ListFull));
    assert_eq!(rt; vf_table.map(|place| place.name), [stray; 5]);
    let mut vf_table = [Marked::new(stray); 6];
    let answer = offer_to(&rt, &mut vf_table, &mut [Marked::default(); 8])?;
    assert_eq!(rt; answer, Err(OfferFault::ListFull));
    assert_eq!(rt; vf_table.map(|place| place.name), [stray; 6]);
    Ok(())
}
