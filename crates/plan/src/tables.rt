// What a plan is read into.

use sheet::{FACE_LIMIT, Face, POINT_LIMIT, Point, TEXT_LIMIT};

/// One byte past the longest text that is accepted.
const TEXT_ROOM: usize = TEXT_LIMIT + 1;

/// One byte past the longest record.
const RECORD_ROOM: usize = 7 * POINT_LIMIT as usize + 1;

/// Tables of the full limits, for any plan: for its text, its record and its rows.
#[derive(Drop)]
pub struct PlanTables {
    pub(crate) text: [u8; TEXT_ROOM],
    pub(crate) step: [u8; RECORD_ROOM],
    pub points: [Point; POINT_LIMIT as usize],
    pub faces: [Face; FACE_LIMIT as usize],
}

impl PlanTables {
    pub fn new() -> PlanTables {
        PlanTables {
            text: [0; TEXT_ROOM],
            step: [0; RECORD_ROOM],
            points: [Point::default(); POINT_LIMIT as usize],
            faces: [Face::default(); FACE_LIMIT as usize],
        }
    }
}
