// Small sheets, and a search of each.
use near_faces::{Node, Pair, SearchFault, SweptBox, find_near};
use sheet::{Coords, Draft, Face, Point, read_sheet};
use std::test::Fail;

/// A draft with its tables.
#[derive(Drop)]
pub(crate) struct Sheet {
    pub draft: Draft,
    pub points: [Point; 9],
    pub faces: [Face; 3],
}

/// The tables of a search, larger than it needs, and its answer.
#[derive(Drop)]
pub(crate) struct Searched {
    pub answer: Result<usize, SearchFault>,
    pub nodes: [Node; 6],
    pub pairs: [Pair; 4],
}

/// What stands in a place before the search.
pub(crate) const MARK: Pair = Pair {
    first: 77,
    second: 78,
};

pub(crate) fn read(text: &str) -> Result<Sheet, Fail> {
    let mut points = [Point::default(); 9];
    let mut faces = [Face::default(); 3];
    match read_sheet(text.as_bytes(), &mut points, &mut faces) {
        Ok(draft) => Ok(Sheet {
            draft,
            points,
            faces,
        }),
        Err(_) => Err(Fail::new("the sheet is refused")),
    }
}

/// Three faces in a row on the x axis, each four wide: the second begins this far from the first,
/// and the third so far from the second.
pub(crate) fn in_a_row(second: i16, third: i16) -> Result<Sheet, Fail> {
    let mut sheet = read(
        "v 0 0 0\nv 4 0 0\nv 0 4 0\nv 0 0 0\nv 4 0 0\nv 0 4 0\nv 0 0 0\nv 4 0 0\nv 0 4 0\nf 1 2 3\nf 4 5 6\nf 7 8 9\n",
    )?;
    for i in 3..6 {
        sheet.points[i] = moved(sheet.points[i], second);
    }
    for i in 6..9 {
        sheet.points[i] = moved(sheet.points[i], third);
    }
    Ok(sheet)
}

fn moved(point: Point, x: i16) -> Point {
    let at = Coords {
        x: point.start.x.wrapping_add(x),
        y: point.start.y,
        z: point.start.z,
    };
    Point { start: at, end: at }
}

/// A search with room for so many nodes and pairs.
pub(crate) fn search(sheet: &Sheet, node_room: usize, pair_room: usize) -> Searched {
    let mut nodes = [Node::default(); 6];
    let mut pairs = [MARK; 4];
    let answer = find_near(
        &sheet.draft,
        &sheet.points,
        &sheet.faces,
        &mut nodes[..node_room.min(6)],
        &mut pairs[..pair_room.min(4)],
    );
    Searched {
        answer,
        nodes,
        pairs,
    }
}

/// The box over these stretches of x, and y from 0 to 4.
pub(crate) fn wide(from: i16, to: i16) -> SweptBox {
    SweptBox {
        least: Coords {
            x: from,
            y: 0,
            z: 0,
        },
        greatest: Coords { x: to, y: 4, z: 0 },
    }
}
