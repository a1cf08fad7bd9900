// How many parts the step has at a depth.
use filters::{parts_at, parts_table};
use std::process::Abort;

#[test]
fn at_each_depth(rt: HostRuntime) {
    assert_eq!(rt; parts_table(), [1, 2, 4, 8, 16, 32, 64]);
    assert_eq!(rt; parts_at(0), Some(1));
    assert_eq!(rt; parts_at(3), Some(8));
    assert_eq!(rt; parts_at(6), Some(64));
}

#[test]
fn too_deep(rt: HostRuntime) {
    assert_eq!(rt; parts_at(7), None);
    assert_eq!(rt; parts_at(255), None);
}
