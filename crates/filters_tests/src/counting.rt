// How many parts are put to a filter for the earliest that it passes.
use crate::shapes::{at, moving, over_t, test_of};
use filters::{DELIVERED, Earliest, Filter, Test, earliest_at};
use motion::Shape;
use std::cell::Cell;
use std::process::Abort;
use std::test::Fail;

/// A filter, and how often it was asked.
#[derive(Drop)]
struct Counting<F> {
    filter: F,
    asked: Cell<u32>,
}

impl<F: Filter> Filter for Counting<F> {
    ghost struck = { λ f. F.Filter.struck f.filter };

    ghost lawful = { λ f. F.Filter.lawful f.filter };

    fn strikes(&self, test: &Test) -> bool {
        self.asked.set(self.asked.get().wrapping_add(1));
        self.filter.strikes(test)
    }
}

/// Finds this part, and puts so many to the filter, no more and no less.
fn finds(rt: &impl Abort, shape: Shape, depth: u8, part: Option<u8>, put: u8) -> Result<(), Fail> {
    let test = test_of(shape)?;
    let filter = Counting {
        filter: DELIVERED,
        asked: Cell::new(0),
    };
    let found = earliest_at(&filter, &test, depth);
    assert!(rt; found == Some(Earliest { part, put }), "{}", depth);
    assert!(rt; filter.asked.get() == u32::from(put), "{}", depth);
    Ok(())
}

#[test]
fn up_to_the_part_that_is_passed(rt: HostRuntime) -> Result<(), Fail> {
    let crossing = over_t(moving(at(1, 1, 1), at(1, 1, -1)));
    finds(&rt, crossing, 0, Some(0), 1)?;
    finds(&rt, crossing, 1, Some(0), 1)?;
    finds(&rt, crossing, 2, Some(1), 2)?;
    finds(&rt, crossing, 6, Some(31), 32)
}

#[test]
fn all_parts_of_a_struck_test(rt: HostRuntime) -> Result<(), Fail> {
    let leaving = over_t(moving(at(1, 1, 1), at(1, 1, 3)));
    finds(&rt, leaving, 0, None, 1)?;
    finds(&rt, leaving, 1, None, 2)?;
    finds(&rt, leaving, 2, None, 4)?;
    finds(&rt, leaving, 6, None, 64)
}

#[test]
fn no_part_is_asked_too_deep(rt: HostRuntime) -> Result<(), Fail> {
    let test = test_of(over_t(moving(at(1, 1, 1), at(1, 1, -1))))?;
    let filter = Counting {
        filter: DELIVERED,
        asked: Cell::new(0),
    };
    assert!(rt; earliest_at(&filter, &test, 7).is_none());
    assert_eq!(rt; filter.asked.get(), 0);
    Ok(())
}
