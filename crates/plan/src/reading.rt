// Reading a plan's sheet and its step.
ghost use Rattle.std.specs.Prelude.{◌≡◌, ◌+◌, ◌≤◌, length, IfOk, MatchResult};
ghost use Rattle.hosts.specs.Events.{Reading};
ghost use Rattle.sheet.specs.Sheet.{text_limit, point_limit, face_limit};
ghost use Rattle.step.specs.Limit.{record_limit};
ghost use Rattle.plan.specs.declared.plan_files.PlanFile.TheVariants.{Sheet, Step};
ghost use Rattle.plan.specs.Reading.{PlanRead};
ghost use Rattle.plan.specs.inner.ReadFiles.{SheetRead, StepLaid};

use crate::plan_files::PlanFile;
use crate::tables::PlanTables;
use hosts::Host;
use sheet::{Draft, Face, Notice, Point, SheetFault, read_sheet};
use step::{StepFault, lay};

/// Reads the sheet and lays its step onto it, or answers the first fault; after a fault of the sheet
/// the step is not read.
#[tactic(auto, using(crate::proofs::FileByFile::sheet_unread, crate::proofs::FileByFile::sheet_faulty, crate::proofs::FileByFile::step_unread, crate::proofs::FileByFile::step_faulty, crate::proofs::FileByFile::both_read))]
pub fn read_plan<H: Host<File = PlanFile>>(
    tables: &mut PlanTables,
    host: &mut H,
) -> Result<Result<Draft, Notice>, H::Error>
    ensures read { PlanRead H.does H.fails tables.new.points tables.new.faces
        host.old result host.new }
    ensures point_count { IfOk result (λ read. IfOk read (λ d. d.points ≤ point_limit)) }
    ensures face_count { IfOk result (λ read. IfOk read (λ d. d.faces ≤ face_limit)) }
{
    let PlanTables {
        text,
        step,
        points,
        faces,
    } = tables;
    let draft = match read_text(text, points, faces, host)? {
        Ok(draft) => draft,
        Err(fault) => return Ok(Err(fault.notice())),
    };
    match lay_step(&draft, step, points, host)? {
        Ok(()) => Ok(Ok(draft)),
        Err(fault) => Ok(Err(fault.notice())),
    }
}

/// Reads the sheet into the tables, or its first fault.
fn read_text<H: Host<File = PlanFile>>(
    text: &mut [u8],
    points: &mut [Point],
    faces: &mut [Face],
    host: &mut H,
) -> Result<Result<Draft, SheetFault>, H::Error>
    requires text { length text.old ≡ text_limit + 1 }
    requires points { length points.old ≡ point_limit }
    requires faces { length faces.old ≡ face_limit }
    ensures read { MatchResult result
        (λ read. SheetRead H.does host.old points.new faces.new read host.new)
        (λ e. H.fails host.old (Reading Sheet) e host.new) }
    ensures point_count { IfOk result (λ read. IfOk read (λ d. d.points ≤ point_limit)) }
    ensures face_count { IfOk result (λ read. IfOk read (λ d. d.faces ≤ face_limit)) }
{
    let count = host.fill(PlanFile::Sheet, text)?;
    Ok(read_sheet(&text[..count], points, faces))
}

/// Lays the step onto the draft's points, or answers its first fault.
fn lay_step<H: Host<File = PlanFile>>(
    draft: &Draft,
    step: &mut [u8],
    points: &mut [Point],
    host: &mut H,
) -> Result<Result<(), StepFault>, H::Error>
    requires step { length step.old ≡ record_limit + 1 }
    requires points { length points.old ≡ point_limit }
    requires few { draft.now.points ≤ point_limit }
    ensures { MatchResult result
        (λ laid. StepLaid H.does draft.now points.old points.new host.old laid host.new)
        (λ e. H.fails host.old (Reading Step) e host.new) }
{
    let count = host.fill(PlanFile::Step, step)?;
    Ok(lay(draft, &step[..count], points))
}
