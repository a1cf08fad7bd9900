// What a search refuses, and what it leaves then.
use crate::sheets::{MARK, in_a_row, search};
use near_faces::{Node, Pair, SearchFault, find_near};
use sheet::Face;
use std::test::Fail;

#[test]
fn too_many_pairs(rt: HostRuntime) -> Result<(), Fail> {
    let searched = search(&in_a_row(4, 8)?, 5, 1);
    assert_eq!(rt; searched.answer, Err(SearchFault::TooManyPairs));
    assert_eq!(rt; searched.pairs, [MARK; 4]);
    // the tree stands
    assert_eq!(rt; searched.nodes[0].count, 3);
    Ok(())
}

#[test]
fn too_few_nodes(rt: HostRuntime) -> Result<(), Fail> {
    let searched = search(&in_a_row(4, 8)?, 4, 0);
    assert_eq!(rt; searched.answer, Err(SearchFault::TooFewNodes));
    assert_eq!(rt; searched.nodes, [Node::default(); 6]);
    Ok(())
}

#[test]
fn the_lowest_face_outside(rt: HostRuntime) -> Result<(), Fail> {
    let mut sheet = in_a_row(4, 8)?;
    sheet.faces[1] = Face { a: 0, b: 9, c: 1 };
    sheet.faces[2] = Face { a: 10, b: 0, c: 1 };
    let searched = search(&sheet, 0, 0);
    assert_eq!(rt; searched.answer, Err(SearchFault::NoSuchPoint(1)));
    assert_eq!(rt;
        searched.answer.map_err(|fault| fault.notice().number),
        Err(19)
    );
    Ok(())
}

#[test]
fn a_table_too_short(rt: HostRuntime) -> Result<(), Fail> {
    let sheet = in_a_row(4, 8)?;
    let mut nodes = [Node::default(); 5];
    let mut pairs = [Pair::default(); 3];
    let short = &sheet.points[..8];
    let answer = find_near(&sheet.draft, short, &sheet.faces, &mut nodes, &mut pairs);
    assert_eq!(rt; answer, Err(SearchFault::TableTooShort));
    let short = &sheet.faces[..2];
    let answer = find_near(&sheet.draft, &sheet.points, short, &mut nodes, &mut pairs);
    assert_eq!(rt; answer, Err(SearchFault::TableTooShort));
    Ok(())
}
