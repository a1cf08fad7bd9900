// Drafts of so many points, and rows for their tables.
use sheet::{Coords, Draft, Face, Point, read_sheet};
use std::test::Fail;

pub(crate) const ZERO: Coords = Coords { x: 0, y: 0, z: 0 };

/// A row that no test expects to be written.
pub(crate) const MARKED: Point = Point {
    start: Coords { x: 7, y: 8, z: 9 },
    end: Coords {
        x: -7,
        y: -8,
        z: -9,
    },
};

pub(crate) fn at(x: i16, y: i16, z: i16) -> Coords {
    Coords { x, y, z }
}

/// The draft of a sheet of one, two or three points.
pub(crate) fn draft_of(points: u8) -> Result<Draft, Fail> {
    let text = match points {
        1 => "v 0 0 0\n",
        2 => "v 0 0 0\nv 0 0 0\n",
        _ => "v 0 0 0\nv 0 0 0\nv 0 0 0\n",
    };
    let mut rows = [MARKED; 3];
    let mut faces: [Face; 0] = [];
    match read_sheet(text.as_bytes(), &mut rows, &mut faces) {
        Ok(draft) => Ok(draft),
        Err(_) => Err(Fail::new("the sheet is refused")),
    }
}
