// How many parts are put to a filter for the earliest part of an entry, and for the request.
use crate::plans::{Inspected, crossing, open, tables, turning};
use filters::{DELIVERED, Earliest, Filter, Test};
use inspection::{Answer, Lists, Offering, Request, VfName, WindowFault, inspect};
use motion::Kind;
use std::cell::Cell;
use std::process::Abort;
use std::test::Fail;

/// A filter, and how often it was asked.
#[derive(Clone, Copy)]
struct Counting<'a, F> {
    filter: F,
    asked: &'a Cell<u32>,
}

impl<'a, F: Filter> Filter for Counting<'a, F> {
    ghost struck = { λ f. F.Filter.struck f.filter };

    ghost lawful = { λ f. F.Filter.lawful f.filter };

    fn strikes(&self, test: &Test) -> bool {
        self.asked.set(self.asked.get().wrapping_add(1));
        self.filter.strikes(test)
    }
}

/// The earliest part of an entry of the VF list is this, and the filter is asked so often for it.
fn finds<F: Filter + Drop>(
    rt: &impl Abort,
    inspected: &Inspected<'_, F>,
    asked: &Cell<u32>,
    entry: u32,
    earliest: Result<Earliest, WindowFault>,
    put: u32,
) {
    asked.set(0);
    inspected.expect_earliest(rt, Kind::Vf, entry, earliest);
    assert_eq!(rt; asked.get(), put);
}

#[test]
fn of_an_entry(rt: HostRuntime) -> Result<(), Fail> {
    let asked = Cell::new(0);
    let filter = Counting {
        filter: DELIVERED,
        asked: &asked,
    };
    let (mut vf, mut ee) = tables();
    let mut inspected = open(crossing()?, filter, 2, &mut vf, &mut ee)?;
    let _ = inspected.offer(0, 1);
    let (part, put) = (Some(1), 2);
    finds(&rt, &inspected, &asked, 0, Ok(Earliest { part, put }), 2);
    let _ = inspected.set_depth(6);
    let (part, put) = (Some(31), 32);
    finds(&rt, &inspected, &asked, 0, Ok(Earliest { part, put }), 32);
    let none = Err(WindowFault::NoSuchEntry(1));
    finds(&rt, &inspected, &asked, 1, none, 0);
    Ok(())
}

#[test]
fn of_an_entry_that_has_none(rt: HostRuntime) -> Result<(), Fail> {
    let asked = Cell::new(0);
    let filter = Counting {
        filter: DELIVERED,
        asked: &asked,
    };
    let (mut vf, mut ee) = tables();
    let mut inspected = open(turning()?, filter, 0, &mut vf, &mut ee)?;
    let _ = inspected.offer(0, 1);
    let name = VfName { point: 3, face: 0 };
    let mut entry = 6;
    for i in 0..6u32 {
        if inspected.vf_entry(i) == Some(name) {
            entry = i;
        }
    }
    let _ = inspected.set_depth(1);
    let (part, put) = (None, 2);
    finds(
        &rt,
        &inspected,
        &asked,
        entry,
        Ok(Earliest { part, put }),
        2,
    );
    Ok(())
}

/// How often the filter is asked for these requests, of which the last asks for an earliest part,
/// and the answer to that.
fn asked_for(requests: &[Request]) -> Result<(u32, Answer), Fail> {
    let plan = crossing()?;
    let (mut vf_table, mut ee_table) = tables();
    let mut lists = Lists::new(&mut vf_table, &mut ee_table);
    let mut answers = [Answer::Window(Ok(None)); 4];
    let asked = Cell::new(0);
    let filter = Counting {
        filter: DELIVERED,
        asked: &asked,
    };
    let worked = inspect(
        plan.draft,
        filter,
        2,
        &plan.points,
        &plan.faces,
        &mut lists,
        requests,
        &mut answers,
    );
    match worked {
        Ok(worked) if worked.answered > 0 && worked.answered <= 4 => {
            Ok((asked.get(), answers[worked.answered - 1]))
        }
        _ => Err(Fail::new("the requests are not worked")),
    }
}

const OFFER: Request = Request::Offer(Offering::Faces(0, 1));

const QUESTION: Request = Request::Earliest(Kind::Vf, 0);

#[test]
fn of_a_request(rt: HostRuntime) -> Result<(), Fail> {
    let (offer, _) = asked_for(&[OFFER])?;
    let (asked, answer) = asked_for(&[OFFER, QUESTION])?;
    let (part, put) = (Some(1), 2);
    assert_eq!(rt; answer, Answer::Earliest(Ok(Earliest { part, put })));
    assert_eq!(rt; asked.wrapping_sub(offer), 2);
    let (asked, answer) = asked_for(&[OFFER, Request::SetDepth(6), QUESTION])?;
    let (part, put) = (Some(31), 32);
    assert_eq!(rt; answer, Answer::Earliest(Ok(Earliest { part, put })));
    assert_eq!(rt; asked.wrapping_sub(offer), 32);
    Ok(())
}
