// What the work is done in.
ghost use Rattle.std.specs.Prelude.{◌≡◌};

use sheet::{FACE_LIMIT, Face, POINT_LIMIT, Point, TEXT_LIMIT};

/// One byte past the longest text that is accepted.
const TEXT_ROOM: usize = TEXT_LIMIT + 1;

/// The length of the longest record.
const RECORD_ROOM: usize = 7 * POINT_LIMIT as usize;

/// Tables of the full limits, for the rows of two frames, the text of one and the record. The rows of
/// the first frame become those of the step.
#[derive(Drop)]
pub struct Tables {
    pub(crate) text: [u8; TEXT_ROOM],
    pub(crate) points: [Point; POINT_LIMIT as usize],
    pub(crate) faces: [Face; FACE_LIMIT as usize],
    pub(crate) end_points: [Point; POINT_LIMIT as usize],
    pub(crate) end_faces: [Face; FACE_LIMIT as usize],
    pub(crate) record: [u8; RECORD_ROOM],
}

impl Tables {
    /// The points of the step that was read.
    pub fn points(&self) -> &[Point]
        ensures { result.now ≡ self.now.points }
    {
        &self.points
    }

    /// Its faces.
    pub fn faces(&self) -> &[Face]
        ensures { result.now ≡ self.now.faces }
    {
        &self.faces
    }

    pub fn new() -> Tables {
        Tables {
            text: [0; TEXT_ROOM],
            points: [Point::default(); POINT_LIMIT as usize],
            faces: [Face::default(); FACE_LIMIT as usize],
            end_points: [Point::default(); POINT_LIMIT as usize],
            end_faces: [Face::default(); FACE_LIMIT as usize],
            record: [0; RECORD_ROOM],
        }
    }
}
