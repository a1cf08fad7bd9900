// The seven tests that are worked out by hand.
use crate::shapes::{at, moving, over_t, resting, test_of};
use filters::{
    BoxFilter, DELIVERED, Filter, PlaneFilter, SlabFilter, controls, struck_at, window_at,
};
use motion::Shape;
use std::process::Abort;
use std::test::Fail;

/// Checks the control values of a test, and what Box, Slab and Plane answer.
fn check_answers(rt: &impl Abort, shape: Shape, g: [i64; 4], by: [bool; 3]) -> Result<(), Fail> {
    let test = test_of(shape)?;
    let found = controls(&test);
    assert_eq!(rt; found.g0, g[0]);
    assert_eq!(rt; found.g1, g[1]);
    assert_eq!(rt; found.g2, g[2]);
    assert_eq!(rt; found.g3, g[3]);
    assert_eq!(rt; BoxFilter.strikes(&test), by[0]);
    assert_eq!(rt; SlabFilter.strikes(&test), by[1]);
    assert_eq!(rt; PlaneFilter.strikes(&test), by[2]);
    assert_eq!(rt; DELIVERED.strikes(&test), by[0] || by[1] || by[2]);
    Ok(())
}

/// Checks at which depth a test is first struck.
fn check_first_depth(rt: &impl Abort, shape: Shape, first: u8) -> Result<(), Fail> {
    let test = test_of(shape)?;
    for depth in 0..7u8 {
        assert!(rt;
            struck_at(&DELIVERED, &test, depth) == Some(depth >= first),
            "{}",
            depth
        );
    }
    assert!(rt; struck_at(&DELIVERED, &test, 7) == None);
    Ok(())
}

#[test]
fn over_a_resting_face(rt: HostRuntime) -> Result<(), Fail> {
    let leaving = over_t(moving(at(1, 1, 1), at(1, 1, 3)));
    check_answers(&rt, leaving, [48, 80, 112, 144], [true, true, true])?;
    check_first_depth(&rt, leaving, 0)?;
    let crossing = over_t(moving(at(1, 1, 1), at(1, 1, -1)));
    check_answers(&rt, crossing, [48, 16, -16, -48], [false, false, false])?;
    check_first_depth(&rt, crossing, 7)?;
    let landing = over_t(moving(at(1, 1, 1), at(1, 1, 0)));
    check_answers(&rt, landing, [48, 32, 16, 0], [false, false, false])?;
    let beside = over_t(resting(at(9, 9, 0)));
    check_answers(&rt, beside, [0, 0, 0, 0], [true, true, false])
}

#[test]
fn windows(rt: HostRuntime) -> Result<(), Fail> {
    let crossing = test_of(over_t(moving(at(1, 1, 1), at(1, 1, -1))))?;
    assert!(rt; window_at(&DELIVERED, &crossing, 0) == Some(Some((0, 0))));
    assert!(rt; window_at(&DELIVERED, &crossing, 1) == Some(Some((0, 1))));
    assert!(rt; window_at(&DELIVERED, &crossing, 2) == Some(Some((1, 2))));
    assert!(rt; window_at(&DELIVERED, &crossing, 6) == Some(Some((31, 32))));
    assert!(rt; window_at(&DELIVERED, &crossing, 7) == None);
    let leaving = test_of(over_t(moving(at(1, 1, 1), at(1, 1, 3))))?;
    assert!(rt; window_at(&DELIVERED, &leaving, 6) == Some(None));
    Ok(())
}

#[test]
fn on_a_moving_face(rt: HostRuntime) -> Result<(), Fail> {
    let rising = Shape::vf(
        moving(at(1, 1, 1), at(1, 1, 11)),
        moving(at(0, 0, 0), at(0, 0, 10)),
        moving(at(4, 0, 0), at(4, 0, 10)),
        moving(at(0, 4, 0), at(0, 4, 10)),
        0,
    );
    check_answers(&rt, rising, [48, 48, 48, 48], [false, true, true])?;
    let turning = Shape::vf(
        moving(at(2, 0, 2), at(-2, 0, 0)),
        resting(at(0, 0, 0)),
        moving(at(1, 0, 0), at(0, 0, 1)),
        resting(at(0, 1, 0)),
        0,
    );
    check_answers(&rt, turning, [6, 0, 0, 6], [false, false, false])?;
    check_first_depth(&rt, turning, 1)
}

#[test]
fn two_edges(rt: HostRuntime) -> Result<(), Fail> {
    let sinking = Shape::ee(
        resting(at(-2, 0, 0)),
        resting(at(2, 0, 0)),
        moving(at(0, -2, 1), at(0, -2, -1)),
        moving(at(0, 2, 1), at(0, 2, -1)),
        0,
    );
    check_answers(&rt, sinking, [-48, -16, 16, 48], [false, false, false])?;
    check_first_depth(&rt, sinking, 7)
}
