// What is refused changes nothing.
use crate::nothing::Nothing;
use crate::plans::{Plan, crossing, open, tables, tally};
use inspection::{Inspection, Lists, Marked, OfferFault, Offering, OpeningFault, VfName};
use sheet::{Face, Point};
use std::process::Abort;
use std::test::Fail;

/// Offers two faces, over such tables, after an accepted offer, and looks whether all is as it was.
fn refuses(
    rt: &impl Abort,
    points: &[Point],
    faces: &[Face],
    pair: (u16, u16),
    fault: OfferFault,
) -> Result<(), Fail> {
    let (mut vf, mut ee) = ([Marked::default(); 9], [Marked::default(); 12]);
    let mut inspected = open(crossing()?, Nothing, 2, &mut vf, &mut ee)?;
    let _ = inspected.offer(0, 1);
    let before = inspected.counts();
    let answer = inspected.offer_over(points, faces, Offering::Faces(pair.0, pair.1));
    assert_eq!(rt; answer, Err(fault));
    inspected.expect_counts(rt, before.vf, before.ee);
    inspected.expect_lens(rt, 6, 9);
    inspected.expect_vf_entry(rt, 3, VfName { point: 3, face: 0 });
    Ok(())
}

#[test]
fn offers(rt: HostRuntime) -> Result<(), Fail> {
    let Plan {
        draft: _draft,
        points,
        faces,
    } = crossing()?;
    refuses(&rt, &points[..5], &faces, (0, 1), OfferFault::TableTooShort)?;
    refuses(&rt, &points, &faces[..1], (0, 1), OfferFault::TableTooShort)?;
    refuses(&rt, &points, &faces, (2, 1), OfferFault::NoSuchFace(2))?;
    refuses(&rt, &points, &faces, (0, 9), OfferFault::NoSuchFace(9))?;
    refuses(&rt, &points, &faces, (1, 1), OfferFault::SameFace(1))?;
    let strays = Face { a: 0, b: 6, c: 1 };
    refuses(
        &rt,
        &points,
        &[strays, faces[1]],
        (0, 1),
        OfferFault::NoSuchPoint(0),
    )?;
    refuses(
        &rt,
        &points,
        &[faces[0], strays],
        (0, 1),
        OfferFault::NoSuchPoint(1),
    )
}

#[test]
fn a_million_and_one(rt: HostRuntime) -> Result<(), Fail> {
    let (mut vf, mut ee) = tables();
    let mut inspected = open(crossing()?, Nothing, 0, &mut vf, &mut ee)?;
    for _ in 0..1_000_000 {
        inspected.expect_offer(&rt, 0, 1, Ok(()));
    }
    inspected.expect_offer(&rt, 0, 1, Err(OfferFault::TooManyOffers));
    inspected.expect_counts(&rt, tally(6, 0, 0, 5_999_994), tally(9, 0, 0, 8_999_991));
    Ok(())
}

#[test]
fn depths(rt: HostRuntime) -> Result<(), Fail> {
    let plan = crossing()?;
    let (mut vf_table, mut ee_table) = tables();
    let mut lists = Lists::new(&mut vf_table, &mut ee_table);
    let draft = match Inspection::open(plan.draft, Nothing, 7, &mut lists) {
        Ok(_) => return Err(Fail::new("depth 7 is open")),
        Err(refused) => {
            assert_eq!(rt; refused.fault, OpeningFault::TooDeep(7));
            refused.draft
        }
    };
    let mut inspection = match Inspection::open(draft, Nothing, 6, &mut lists) {
        Ok(inspection) => inspection,
        Err(_) => return Err(Fail::new("the opening is refused")),
    };
    assert_eq!(rt; inspection.set_depth(7), Err(OpeningFault::TooDeep(7)));
    assert_eq!(rt; inspection.set_depth(6), Ok(()));
    let what = Offering::Faces(0, 1);
    let _ = inspection.offer(&plan.points, &plan.faces, &mut lists, what);
    let closed = inspection.close();
    assert_eq!(rt; closed.counts().vf, tally(6, 0, 0, 0));
    let (draft, _filter) = closed.into_draft();
    assert_eq!(rt; (draft.points(), draft.faces()), (6, 2));
    Ok(())
}
