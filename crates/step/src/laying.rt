// Lays a record onto a table by two passes: the first only looks for a fault, the second writes the
// ends.
ghost use Rattle.std.specs.Prelude.{◌≡◌, ◌≤◌, List, length, take, is_ok, if◌then◌else◌, OnOk, IsOk, None};
ghost use Rattle.sheet.specs.Checks.{first_fit, fault_notice};
ghost use Rattle.sheet.specs.Sheet.{onto_front};
ghost use Rattle.step.specs.Faults.{notice_of_step};
ghost use Rattle.step.specs.Laying.{rows_checks, with_ends, lay_checks};
ghost use Rattle.step.specs.Steps.{Step};
ghost use Rattle.sheet.specs.declared.rows.Point.{Point};

use crate::faults::StepFault;
use crate::rows::read_row;
use sheet::{Draft, Point};

/// Lays a record onto the draft's points: each end is the start, as it counts, and the move. Starts
/// keep what they hold.
///
/// Accepted is just what is the record of these rows with some ends in range (`only`), and then the
/// rows have these ends (`back`).
pub fn lay(draft: &Draft, bytes: &[u8], points: &mut [Point]) -> Result<(), StepFault>
    ensures fault { fault_notice notice_of_step result
        ≡ first_fit (lay_checks draft.now.points points.old bytes.now) }
    ensures points { let rows = take draft.now.points points.old in
        points.new
        ≡ (if is_ok result then onto_front (with_ends rows bytes.now) points.old else points.old) }
    ensures only { let n = draft.now.points in
        OnOk result (Step (take n points.old) bytes.now (take n points.new)) }
    ensures back { let n = draft.now.points in (ends : List Point) → n ≤ length points.old
        → Step (take n points.old) bytes.now ends → IsOk result × (take n points.new ≡ ends) }
{
    let count = draft.points() as usize;
    if points.len() < count {
        return Err(StepFault::TableTooShort);
    }
    lay_rows(bytes, &mut points[0..count])
}

/// Lays a record onto all rows of a table.
fn lay_rows(bytes: &[u8], rows: &mut [Point]) -> Result<(), StepFault>
    requires { length rows.old ≤ 65535 }
    ensures fault { fault_notice notice_of_step result
        ≡ first_fit (rows_checks 0 rows.old bytes.now) }
    ensures rows { rows.new ≡ (if is_ok result then with_ends rows.old bytes.now else rows.old) }
{
    survey(bytes, rows)?;
    fill(bytes, rows);
    Ok(())
}

/// Whether this is a record of these rows, or its first fault.
fn survey(bytes: &[u8], rows: &[Point]) -> Result<(), StepFault>
    requires { length rows.now ≤ 65535 }
    ensures { fault_notice notice_of_step result ≡ first_fit (rows_checks 0 rows.now bytes.now) }
{
    let mut rest = bytes;
    for i in 0..rows.len() {
        let (_, next) = read_row(rest, rows[i], i as u32)?;
        rest = next;
    }
    if !rest.is_empty() {
        return Err(StepFault::BytesLeft);
    }
    Ok(())
}

/// Writes the rows with the ends that their record gives, of which the survey has found no fault.
#[tactic(auto, using(crate::proofs::NextRow::checks_more_set, crate::proofs::NextRow::ends_more))]
fn fill(bytes: &[u8], rows: &mut [Point])
    requires few { length rows.old ≤ 65535 }
    requires good { first_fit (rows_checks 0 rows.old bytes.now) ≡ None }
    ensures { rows.new ≡ with_ends rows.old bytes.now }
{
    let mut rest = bytes;
    for i in 0..rows.len() {
        let Ok((row, next)) = read_row(rest, rows[i], i as u32) else {
            unreachable!()
        };
        rows[i] = row;
        rest = next;
    }
}
