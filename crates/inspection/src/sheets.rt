// A sheet as it lies in the first rows of the caller's tables.
ghost use Rattle.std.specs.Prelude.{◌≡◌, ◌≤◌, length, unsigned_abs, is_none, IfSome};
ghost use Rattle.sheet.specs.Counted.{coordinate_of};
ghost use Rattle.motion.specs.Laws.{Within, InReach};
ghost use Rattle.inspection.specs.Sheets.{position_of, moving_of, sheet_in, sheet_of_rows, point_at, face_at};
ghost use Rattle.inspection.specs.Offers.{lacks_rows};

use motion::{Moving, V3};
use sheet::{Coords, Draft, Face, Point, coordinate_of};

/// The rows of a sheet, and no more.
#[derive(Clone, Copy)]
pub struct Rows<'a> {
    points: &'a [Point],
    faces: &'a [Face],
}

impl<'a> Rows<'a> {
    /// The first rows of two tables, as many as the draft counts; none where a table has fewer.
    pub(crate) fn of(draft: &Draft, points: &'a [Point], faces: &'a [Face]) -> Option<Rows<'a>>
        ensures none { is_none result ≡ lacks_rows draft.now points.now faces.now }
        ensures rows { IfSome result (λ r.
            sheet_of_rows r ≡ sheet_in draft.now points.now faces.now) }
    {
        let (m, n) = (draft.points() as usize, draft.faces() as usize);
        if points.len() < m || faces.len() < n {
            return None;
        }
        Some(Rows {
            points: &points[..m],
            faces: &faces[..n],
        })
    }

    /// How many points the sheet has.
    pub fn points(self) -> usize
        ensures { result ≡ length (sheet_of_rows self.entry).points }
    {
        self.points.len()
    }

    /// How many faces the sheet has.
    pub fn faces(self) -> usize
        ensures { result ≡ length (sheet_of_rows self.entry).faces }
    {
        self.faces.len()
    }

    /// A point, each coordinate as it counts.
    pub fn point(self, i: u16) -> Moving
        ensures value { result ≡ point_at (sheet_of_rows self.entry) i }
        ensures reach { InReach 0 result }
    {
        match self.points.get(i as usize) {
            Some(point) => moving(*point),
            None => moving(NOWHERE),
        }
    }

    pub fn face(self, i: u16) -> Face
        ensures { result ≡ face_at (sheet_of_rows self.entry) i }
    {
        match self.faces.get(i as usize) {
            Some(face) => *face,
            None => NO_FACE,
        }
    }
}

// past the end of a table: never asked for
const ORIGIN: Coords = Coords { x: 0, y: 0, z: 0 };

const NOWHERE: Point = Point {
    start: ORIGIN,
    end: ORIGIN,
};

const NO_FACE: Face = Face { a: 0, b: 0, c: 0 };

/// A row's point, each coordinate as it counts.
fn moving(point: Point) -> Moving
    ensures value { result ≡ moving_of point }
    ensures reach { InReach 0 result }
{
    Moving {
        start: position(point.start),
        end: position(point.end),
    }
}

fn position(coords: Coords) -> V3
    ensures value { result ≡ position_of coords }
    ensures reach { Within 4096 result }
{
    V3 {
        x: coordinate(coords.x),
        y: coordinate(coords.y),
        z: coordinate(coords.z),
    }
}

#[tactic(auto, using(crate::proofs::Coordinates::coordinate_near))]
fn coordinate(value: i16) -> i64
    ensures value { result ≡ coordinate_of value }
    ensures reach { unsigned_abs result ≤ 4096 }
{
    i64::from(coordinate_of(value))
}
