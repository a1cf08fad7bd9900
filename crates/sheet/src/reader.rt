// Reads a sheet in two passes: the first finds the first fault, or that there is none; the second
// writes the rows.
ghost use Rattle.std.specs.Prelude.{◌≡◌, ◌≤◌, length, is_ok, take, IfOk, IsTrue, if◌then◌else◌, None};
ghost use Rattle.sheet.specs.Checks.{first_fit, fault_notice};
ghost use Rattle.sheet.specs.CountingBack.{CountsBack};
ghost use Rattle.sheet.specs.Faults.{notice_of_sheet};
ghost use Rattle.sheet.specs.IsSheet.{IsSheet};
ghost use Rattle.sheet.specs.Lines.{numbered_lines};
ghost use Rattle.sheet.specs.Numbered.{line_read};
ghost use Rattle.sheet.specs.inner.Passes.{counts_after, with_point, with_face};
ghost use Rattle.sheet.specs.Sheet.{text_limit, no_rows, line_checks, lines_checks, sheet_checks, has_room, element_of, points_in, faces_in, draft_of, onto_front};

use crate::counts::RowCounts;
use crate::drafts::Draft;
use crate::faults::{SheetFault, Spot};
use crate::lines::{Element, read_line};
use crate::rows::{FACE_LIMIT, Face, POINT_LIMIT, Point};
use crate::splitting::{Line, lines_in};

/// A text has at most 65,536 bytes.
pub const TEXT_LIMIT: usize = 65536;

/// Reads a sheet into the first rows of the caller's tables; the other rows are as they were. On a
/// fault all are.
///
/// What is accepted is a sheet (`meaning`). In a face −n counts back to the nth latest point above
/// its line (`counting_back`).
#[tactic(auto, using(crate::proofs::CountingBack::counts_back))]
pub fn read_sheet(
    text: &[u8],
    points: &mut [Point],
    faces: &mut [Face],
) -> Result<Draft, SheetFault>
    ensures fault { fault_notice notice_of_sheet result
        ≡ first_fit (sheet_checks text.now (length points.old) (length faces.old)) }
    ensures draft { IfOk result (λ d. d ≡ draft_of text.now) }
    ensures meaning { IfOk result
        (λ d. IsSheet (take d.points points.new) (take d.faces faces.new)) }
    ensures counting_back { CountsBack }
    ensures points { let rows = points_in (numbered_lines text.now) in
        points.new ≡ (if is_ok result then onto_front rows points.old else points.old) }
    ensures faces { let rows = faces_in (numbered_lines text.now) in
        faces.new ≡ (if is_ok result then onto_front rows faces.old else faces.old) }
{
    if text.len() > TEXT_LIMIT {
        return Err(SheetFault::TextTooLong);
    }
    let point_room = points.len().min(POINT_LIMIT as usize);
    let face_room = faces.len().min(FACE_LIMIT as usize);
    let room = RowCounts {
        points: point_room as u16,
        faces: face_room as u16,
    };
    let counts = survey(text, room)?;
    fill(text, room, points, faces);
    Ok(Draft::new(counts.points, counts.faces))
}

/// The counts of the sheet that `text` writes, or its first fault.
fn survey(text: &[u8], room: RowCounts) -> Result<RowCounts, SheetFault>
    requires { length text.now ≤ text_limit }
    ensures fault { fault_notice notice_of_sheet result
        ≡ first_fit (lines_checks room no_rows (numbered_lines text.now)) }
    ensures counts { IfOk result (λ c. c ≡ counts_after no_rows (numbered_lines text.now)) }
{
    let mut above = RowCounts::NONE;
    for line in lines_in(text) {
        let element = admit(line, above, room)?;
        above = above.counting(element);
    }
    Ok(above)
}

/// Writes the rows of the sheet that `text` writes, of which the survey has found no fault.
fn fill(text: &[u8], room: RowCounts, points: &mut [Point], faces: &mut [Face])
    requires short { length text.now ≤ text_limit }
    requires point_room { room.points ≤ length points.old }
    requires face_room { room.faces ≤ length faces.old }
    requires good { first_fit (lines_checks room no_rows (numbered_lines text.now)) ≡ None }
    ensures points { points.new ≡ onto_front (points_in (numbered_lines text.now)) points.old }
    ensures faces { faces.new ≡ onto_front (faces_in (numbered_lines text.now)) faces.old }
{
    let mut above = RowCounts::NONE;
    for line in lines_in(text) {
        let Ok(element) = admit(line, above, room) else {
            unreachable()
        };
        store(element, above, points, faces);
        above = above.counting(element);
    }
}

/// What `line` says, below `above`, if it has no fault and there is room for its row.
fn admit(line: Line<'_>, above: RowCounts, room: RowCounts) -> Result<Element, SheetFault>
    ensures fault { fault_notice notice_of_sheet result
        ≡ first_fit (line_checks room above (line_read line.entry)) }
    ensures element { IfOk result (λ e. e ≡ element_of above.points line.entry.bytes.now) }
    ensures room { IfOk result (λ e. IsTrue (has_room room above e)) }
{
    let element = read_line(line, above.points)?;
    if !room.has_room(element, above) {
        return Err(SheetFault::NoRoom(Spot {
            line: line.number,
            field: 0,
        }));
    }
    Ok(element)
}

/// Writes the row of `element` into its table, after those of `above`.
fn store(element: Element, above: RowCounts, points: &mut [Point], faces: &mut [Face])
    requires { IsTrue
        (has_room (record { points = length points.old; faces = length faces.old }) above element) }
    ensures points { points.new ≡ with_point above element points.old }
    ensures faces { faces.new ≡ with_face above element faces.old }
{
    match element {
        Element::Nothing => {}
        Element::Point(point) => points[above.points as usize] = point,
        Element::Face(face) => faces[above.faces as usize] = face,
    }
}
