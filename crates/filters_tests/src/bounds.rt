// Which numbers make a test.
use crate::shapes::{at, resting};
use filters::Test;
use motion::{Shape, V3};
use std::process::Abort;

/// Checks whether a test is made of a point at this place and scale, against others at zero.
fn check_made(rt: &impl Abort, v: V3, scale: u8, made: bool) {
    let o = resting(at(0, 0, 0));
    let m = resting(v);
    assert_eq!(rt; Test::new(Shape::vf(m, o, o, o, scale)).is_some(), made);
    assert_eq!(rt; Test::new(Shape::vf(o, m, o, o, scale)).is_some(), made);
    assert_eq!(rt; Test::new(Shape::vf(o, o, m, o, scale)).is_some(), made);
    assert_eq!(rt; Test::new(Shape::vf(o, o, o, m, scale)).is_some(), made);
}

#[test]
fn coordinates(rt: HostRuntime) {
    check_made(&rt, at(4096, -4096, 4096), 0, true);
    check_made(&rt, at(4097, 0, 0), 0, false);
    check_made(&rt, at(0, -4097, 0), 0, false);
    check_made(&rt, at(0, 0, 4097), 0, false);
    check_made(&rt, at(4097, 0, 0), 1, true);
    check_made(&rt, at(0, 0, -262144), 6, true);
    check_made(&rt, at(0, 0, -262145), 6, false);
    check_made(&rt, at(i64::MIN, 0, 0), 6, false);
    check_made(&rt, at(0, i64::MAX, 0), 6, false);
}

#[test]
fn scales(rt: HostRuntime) {
    check_made(&rt, at(0, 0, 0), 6, true);
    check_made(&rt, at(0, 0, 0), 7, false);
    check_made(&rt, at(0, 0, 0), 255, false);
}
