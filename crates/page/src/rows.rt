// The rows of a sheet and its step, for a picture.
ghost use Rattle.std.specs.Prelude.{◌≡◌, ◌≤◌, [], length, take};
ghost use Rattle.sheet.specs.Sheet.{point_limit, face_limit, onto_front};
ghost use Rattle.plan.specs.Plans.{plan};
ghost use Rattle.page.specs.Shown.{shown};
ghost use Rattle.page.specs.inner.Told.{TellsRows};

use sheet::{Draft, FACE_LIMIT, Face, POINT_LIMIT, Point, read_sheet};
use step::lay;

/// How reading ended, 0 with these rows or 1 with none, since the sheet or its step has a fault; and
/// how many points and faces there are.
#[repr(C)]
#[derive(Clone, Copy, Debug, PartialEq, Eq)]
pub struct RowCounts {
    pub code: u32,
    pub points: usize,
    pub faces: usize,
}

/// Reads a sheet with its step for a picture: puts the rows into the front of these tables, as far as
/// they have room.
#[unsafe(no_mangle)]
pub extern "C" fn page_sheet(
    sheet: &[u8],
    step: &[u8],
    points: &mut [Point],
    faces: &mut [Face],
) -> RowCounts
    ensures code { let s = shown (plan sheet.now step.now []) in
        result.code ≡ s.code }
    ensures point_count { let s = shown (plan sheet.now step.now []) in
        result.points ≡ length s.points }
    ensures face_count { let s = shown (plan sheet.now step.now []) in
        result.faces ≡ length s.faces }
    ensures points { let s = shown (plan sheet.now step.now []) in
        points.new ≡ onto_front (take (length points.old) s.points) points.old }
    ensures faces { let s = shown (plan sheet.now step.now []) in
        faces.new ≡ onto_front (take (length faces.old) s.faces) faces.old }
{
    let mut all_points = [Point::default(); POINT_LIMIT as usize];
    let mut all_faces = [Face::default(); FACE_LIMIT as usize];
    let counts = read_rows(sheet, step, &mut all_points, &mut all_faces);
    put_front(&all_points[..counts.points], points);
    put_front(&all_faces[..counts.faces], faces);
    counts
}

/// Reads a sheet and its step into tables of the full limits.
fn read_rows(sheet: &[u8], step: &[u8], points: &mut [Point], faces: &mut [Face]) -> RowCounts
    requires points { length points.old ≡ point_limit }
    requires faces { length faces.old ≡ face_limit }
    ensures rows { TellsRows (shown (plan sheet.now step.now [])) points.new faces.new result }
    ensures few_points { result.points ≤ length points.new }
    ensures few_faces { result.faces ≤ length faces.new }
{
    let Ok(draft) = read_sheet(sheet, points, faces) else {
        return RowCounts::NONE;
    };
    let rows = &mut points[..usize::from(draft.points())];
    match lay(&draft, step, rows) {
        Ok(()) => RowCounts::of(&draft),
        Err(_) => RowCounts::NONE,
    }
}

impl RowCounts {
    const NONE: RowCounts = RowCounts {
        code: 1,
        points: 0,
        faces: 0,
    };

    /// The rows that a draft counts.
    fn of(draft: &Draft) -> RowCounts
        ensures { result ≡ record { code = 0; points = draft.now.points; faces = draft.now.faces } }
    {
        RowCounts {
            code: 0,
            points: usize::from(draft.points()),
            faces: usize::from(draft.faces()),
        }
    }
}

/// Puts rows into the front of a table, as far as it has room.
fn put_front<T: Copy>(rows: &[T], table: &mut [T])
    ensures { table.new ≡ onto_front (take (length table.old) rows.now) table.old }
{
    let count = rows.len().min(table.len());
    table[..count].copy_from_slice(&rows[..count]);
}
