// Small tables of marked rows, to see which rows a call writes.
use sheet::{Coords, Face, Point};
use std::process::Abort;

pub(crate) const MARKED_POINT: Point = Point {
    start: Coords { x: 7, y: 8, z: 9 },
    end: Coords {
        x: -7,
        y: -8,
        z: -9,
    },
};

pub(crate) const MARKED_FACE: Face = Face { a: 7, b: 8, c: 9 };

/// Four places for points and two for faces.
#[derive(Drop)]
pub(crate) struct Tables {
    pub(crate) points: [Point; 4],
    pub(crate) faces: [Face; 2],
}

pub(crate) fn marked() -> Tables {
    Tables {
        points: [MARKED_POINT; 4],
        faces: [MARKED_FACE; 2],
    }
}

/// Checks that after `text` the rows from `points` and `faces` on are still marked.
pub(crate) fn check_marked(
    rt: &impl Abort,
    tables: &Tables,
    points: usize,
    faces: usize,
    text: &str,
) {
    for (i, point) in tables.points.iter().enumerate() {
        if i >= points {
            assert_eq!(rt; *point, MARKED_POINT, "a point past the sheet's: {text}");
        }
    }
    for (i, face) in tables.faces.iter().enumerate() {
        if i >= faces {
            assert_eq!(rt; *face, MARKED_FACE, "a face past the sheet's: {text}");
        }
    }
}
