// Reading two frames.
ghost use Rattle.std.specs.Prelude.{◌≡◌, ◌+◌, ◌≤◌, length, take, MatchResult, IfOk};
ghost use Rattle.hosts.specs.Events.{Reading};
ghost use Rattle.sheet.specs.Sheet.{text_limit, point_limit, face_limit};
ghost use Rattle.frames.specs.Comparing.{difference_of};
ghost use Rattle.frames.specs.Reading.{FramesRead};
ghost use Rattle.frames.specs.inner.ReadFrame.{FrameRead};

use crate::comparing::{Difference, compare_frames, end_at};
use crate::frame_files::{FrameFile, NoStep};
use crate::tables::Tables;
use hosts::Host;
use sheet::{Draft, Face, Point, SheetFault, read_sheet};

/// Reads two frames: the tables hold the sheet then that moves from the first to the second, and the
/// answer is its draft; or why there is no step between them. After a fault of the first frame the
/// second is not read.
#[tactic(auto, using(crate::proofs::BothFrames::first_unread, crate::proofs::BothFrames::first_faulty, crate::proofs::BothFrames::second_unread, crate::proofs::BothFrames::second_faulty, crate::proofs::BothFrames::both_differ, crate::proofs::BothFrames::both_same))]
pub fn read_frames<H: Host<File = FrameFile>>(
    tables: &mut Tables,
    host: &mut H,
) -> Result<Result<Draft, NoStep>, H::Error>
    ensures read { FramesRead H.does H.fails tables.new.points tables.new.faces host.old result host.new }
    ensures point_count { IfOk result (λ read. IfOk read (λ d. d.points ≤ length tables.new.points)) }
    ensures face_count { IfOk result (λ read. IfOk read (λ d. d.faces ≤ length tables.new.faces)) }
{
    let Tables {
        text,
        points,
        faces,
        end_points,
        end_faces,
        ..
    } = tables;
    let start = match read_frame(FrameFile::Start, text, points, faces, host)? {
        Ok(draft) => draft,
        Err(fault) => return Ok(Err(NoStep::Faulty(FrameFile::Start, fault.notice()))),
    };
    let end = match read_frame(FrameFile::End, text, end_points, end_faces, host)? {
        Ok(draft) => draft,
        Err(fault) => return Ok(Err(NoStep::Faulty(FrameFile::End, fault.notice()))),
    };
    if let Some(difference) = compare_rows(&start, faces, &end, end_faces) {
        return Ok(Err(NoStep::Different(difference)));
    }
    end_at(points, &end_points[..end.points() as usize]);
    Ok(Ok(start))
}

/// The first difference between two frames, by the rows that their drafts count.
fn compare_rows(
    start: &Draft,
    start_faces: &[Face],
    end: &Draft,
    end_faces: &[Face],
) -> Option<Difference>
    requires start { start.now.faces ≤ length start_faces.now }
    requires end { end.now.faces ≤ length end_faces.now }
    ensures { result ≡ difference_of start.now (take start.now.faces start_faces.now)
        end.now (take end.now.faces end_faces.now) }
{
    let start_faces = &start_faces[..start.faces() as usize];
    let end_faces = &end_faces[..end.faces() as usize];
    compare_frames(start, start_faces, end, end_faces)
}

/// Reads a frame into the tables, or its first fault.
fn read_frame<H: Host<File = FrameFile>>(
    file: FrameFile,
    text: &mut [u8],
    points: &mut [Point],
    faces: &mut [Face],
    host: &mut H,
) -> Result<Result<Draft, SheetFault>, H::Error>
    requires text { length text.old ≡ text_limit + 1 }
    requires points { length points.old ≡ point_limit }
    requires faces { length faces.old ≡ face_limit }
    ensures read { MatchResult result
        (λ read. FrameRead H.does file host.old points.new faces.new read host.new)
        (λ e. H.fails host.old (Reading file) e host.new) }
    ensures point_count { IfOk result (λ read. IfOk read (λ d. d.points ≤ length points.new)) }
    ensures face_count { IfOk result (λ read. IfOk read (λ d. d.faces ≤ length faces.new)) }
{
    let count = host.fill(file, text)?;
    Ok(read_sheet(&text[..count], points, faces))
}
