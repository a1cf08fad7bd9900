// Requests that are worked through.
use crate::plans::{crossing, tables, tally};
use filters::{DELIVERED, Earliest};
use inspection::{
    Answer, Lists, OfferFault, Offering, OpeningFault, Request, Tally, WindowFault, inspect,
};
use motion::Kind;
use std::test::Fail;

const REQUESTS: [Request; 7] = [
    Request::Offer(Offering::Faces(0, 1)),
    Request::Offer(Offering::Faces(1, 1)),
    Request::Window(Kind::Vf, 0),
    Request::SetDepth(7),
    Request::SetDepth(6),
    Request::Window(Kind::Vf, 0),
    Request::Offer(Offering::Faces(1, 0)),
];

const UNANSWERED: Answer = Answer::Window(Ok(None));

/// What comes of the requests: how many are answered, and the VF tests.
fn work_through(requests: &[Request], answers: &mut [Answer]) -> Result<(usize, Tally), Fail> {
    let plan = crossing()?;
    let (mut vf_table, mut ee_table) = tables();
    let mut lists = Lists::new(&mut vf_table, &mut ee_table);
    match inspect(
        plan.draft,
        DELIVERED,
        2,
        &plan.points,
        &plan.faces,
        &mut lists,
        requests,
        answers,
    ) {
        Ok(worked) => Ok((worked.answered, worked.inspection.findings(&lists).vf)),
        Err(_) => Err(Fail::new("the opening is refused")),
    }
}

#[test]
fn in_any_mix(rt: HostRuntime) -> Result<(), Fail> {
    let mut answers = [UNANSWERED; 6];
    let (answered, vf) = work_through(&REQUESTS, &mut answers)?;
    assert_eq!(rt; answered, 6);
    assert_eq!(rt; answers[0], Answer::Offered(Ok(())));
    assert_eq!(rt; answers[1], Answer::Offered(Err(OfferFault::SameFace(1))));
    assert_eq!(rt; answers[2], Answer::Window(Ok(Some((1, 2)))));
    assert_eq!(rt; answers[3], Answer::DepthSet(Err(OpeningFault::TooDeep(7))));
    assert_eq!(rt; answers[4], Answer::DepthSet(Ok(())));
    assert_eq!(rt; answers[5], Answer::Window(Ok(Some((31, 32)))));
    assert_eq!(rt; vf, tally(1, 5, 0, 0));
    Ok(())
}

const QUESTIONS: [Request; 5] = [
    Request::Offer(Offering::Faces(0, 1)),
    Request::Earliest(Kind::Vf, 0),
    Request::Earliest(Kind::Ee, 0),
    Request::SetDepth(6),
    Request::Earliest(Kind::Vf, 0),
];

#[test]
fn earliest_parts(rt: HostRuntime) -> Result<(), Fail> {
    let mut answers = [UNANSWERED; 5];
    let (answered, vf) = work_through(&QUESTIONS, &mut answers)?;
    assert_eq!(rt; answered, 5);
    let (part, put) = (Some(1), 2);
    assert_eq!(rt; answers[1], Answer::Earliest(Ok(Earliest { part, put })));
    assert_eq!(rt;
        answers[2],
        Answer::Earliest(Err(WindowFault::NoSuchEntry(0)))
    );
    let (part, put) = (Some(31), 32);
    assert_eq!(rt; answers[4], Answer::Earliest(Ok(Earliest { part, put })));
    assert_eq!(rt; vf, tally(1, 5, 0, 0));
    Ok(())
}
