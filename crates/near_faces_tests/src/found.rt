// What a search finds: boxes that overlap or touch, and the tree.
use crate::sheets::{MARK, in_a_row, read, search, wide};
use near_faces::{Node, Pair};
use sheet::Coords;
use std::test::Fail;

fn pair(first: u16, second: u16) -> Pair {
    Pair { first, second }
}

fn node(first: u16, count: u16, from: i16, to: i16) -> Node {
    Node {
        first,
        count,
        bounds: wide(from, to),
    }
}

#[test]
fn boxes_that_touch(rt: HostRuntime) -> Result<(), Fail> {
    let searched = search(&in_a_row(4, 8)?, 6, 4);
    assert_eq!(rt; searched.answer, Ok(2));
    assert_eq!(rt; searched.pairs, [pair(0, 1), pair(1, 2), MARK, MARK]);
    Ok(())
}

#[test]
fn a_unit_apart(rt: HostRuntime) -> Result<(), Fail> {
    let searched = search(&in_a_row(5, 9)?, 6, 4);
    assert_eq!(rt; searched.answer, Ok(1));
    assert_eq!(rt; searched.pairs, [pair(1, 2), MARK, MARK, MARK]);
    Ok(())
}

#[test]
fn equal_faces(rt: HostRuntime) -> Result<(), Fail> {
    let searched = search(&in_a_row(0, 0)?, 6, 3);
    assert_eq!(rt; searched.answer, Ok(3));
    assert_eq!(rt; searched.pairs, [pair(0, 1), pair(0, 2), pair(1, 2), MARK]);
    Ok(())
}

#[test]
fn the_tree_of_three(rt: HostRuntime) -> Result<(), Fail> {
    let searched = search(&in_a_row(10, 20)?, 6, 4);
    assert_eq!(rt; searched.answer, Ok(0));
    let tree = [
        node(0, 3, 0, 24),
        node(0, 2, 0, 14),
        node(0, 1, 0, 4),
        node(1, 1, 10, 14),
        node(2, 1, 20, 24),
        Node::default(),
    ];
    assert_eq!(rt; searched.nodes, tree);
    Ok(())
}

#[test]
fn over_start_and_end(rt: HostRuntime) -> Result<(), Fail> {
    let mut sheet = in_a_row(10, 20)?;
    sheet.points[4].end = Coords { x: 30, y: 0, z: 0 };
    sheet.points[0].end = Coords {
        x: -9999,
        y: 0,
        z: 0,
    };
    let searched = search(&sheet, 6, 4);
    assert_eq!(rt; searched.answer, Ok(1));
    assert_eq!(rt; searched.pairs, [pair(1, 2), MARK, MARK, MARK]);
    // a coordinate past a bound counts as that bound
    assert_eq!(rt; searched.nodes[2].bounds, wide(-4096, 4));
    Ok(())
}

#[test]
fn no_face_and_one(rt: HostRuntime) -> Result<(), Fail> {
    let none = search(&read("v 0 0 0\n")?, 0, 0);
    assert_eq!(rt; none.answer, Ok(0));
    let one = search(&read("v 0 0 0\nv 4 0 0\nv 0 4 0\nf 1 2 3\n")?, 1, 0);
    assert_eq!(rt; one.answer, Ok(0));
    assert_eq!(rt; one.nodes[0], node(0, 1, 0, 4));
    Ok(())
}
