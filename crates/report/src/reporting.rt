// The report, written into lent bytes.
ghost use Rattle.std.specs.Prelude.{◌≡◌, ◌^◌, ◌<◌, ◌++◌, [], ◌∷◌, length, is_ok, nat_lt, if◌then◌else◌, IfOk, OnOk};
ghost use Rattle.sheet.specs.Checks.{first_fit, fault_notice};
ghost use Rattle.sheet.specs.Sheet.{onto_front};
ghost use Rattle.inspection.specs.States.{entries_of};
ghost use Rattle.hosts.specs.Pages.{onto_page};
ghost use Rattle.hosts.specs.inner.Filling.{Filled};
ghost use Rattle.report.specs.Faults.{notice_of_report};
ghost use Rattle.report.specs.Reports.{view_of, report_text, printed_unless, len_checks, output_check};

use crate::faults::ReportFault;
use crate::printing::print_report;
use filters::Filter;
use hosts::Page;
use inspection::{Inspection, Lists};
use sheet::{Face, Point};

/// Writes what stands on the lists and what was counted into the front of the output, and answers
/// its length.
///
/// Bytes past it are as they were, and on a fault all are.
#[tactic(auto, using(sheet::proofs::FirstFit::past, sheet::proofs::FirstFit::stop))]
pub fn report<F: Filter>(
    inspection: &Inspection<F>,
    points: &[Point],
    faces: &[Face],
    lists: &Lists<'_>,
    output: &mut [u8],
) -> Result<usize, ReportFault>
    ensures fault { let checks = len_checks inspection.now.draft points.now faces.now in
        let v = view_of F.Filter.struck inspection.now points.now faces.now in
        let text = report_text v (entries_of lists.now) in
        let room = output_check text (length output.old) in
        fault_notice notice_of_report result
        ≡ first_fit (checks (entries_of lists.now) ++ (room ∷ [])) }
    ensures len { let v = view_of F.Filter.struck inspection.now points.now faces.now in
        IfOk result (λ n. n ≡ length (report_text v (entries_of lists.now))) }
    ensures output { let v = view_of F.Filter.struck inspection.now points.now faces.now in
        let text = report_text v (entries_of lists.now) in
        output.new ≡ (if is_ok result then onto_front text output.old else output.old) }
{
    let len = report_len(inspection, points, faces, lists)?;
    if is_too_short(output, len) {
        return Err(ReportFault::OutputTooShort);
    }
    report_onto(inspection, points, faces, lists, output)
}

/// How long the report is: an output of so many bytes is enough.
pub fn report_len<F: Filter>(
    inspection: &Inspection<F>,
    points: &[Point],
    faces: &[Face],
    lists: &Lists<'_>,
) -> Result<usize, ReportFault>
    ensures fault { let checks = len_checks inspection.now.draft points.now faces.now in
        fault_notice notice_of_report result
        ≡ first_fit (checks (entries_of lists.now)) }
    ensures len { let v = view_of F.Filter.struck inspection.now points.now faces.now in
        IfOk result (λ n. n ≡ length (report_text v (entries_of lists.now))) }
{
    report_onto(inspection, points, faces, lists, &mut [])
}

/// Whether the output is too short for so many bytes.
fn is_too_short(output: &[u8], len: usize) -> bool
    ensures { result ≡ nat_lt (length output.now) len }
{
    output.len() < len
}

/// Writes as much of the report as the output has room for, and answers how long all of it is.
fn report_onto<F: Filter>(
    inspection: &Inspection<F>,
    points: &[Point],
    faces: &[Face],
    lists: &Lists<'_>,
    output: &mut [u8],
) -> Result<usize, ReportFault>
    ensures fault { let checks = len_checks inspection.now.draft points.now faces.now in
        fault_notice notice_of_report result
        ≡ first_fit (checks (entries_of lists.now)) }
    ensures len { let v = view_of F.Filter.struck inspection.now points.now faces.now in
        IfOk result (λ n. n ≡ length (report_text v (entries_of lists.now))) }
    ensures output { let v = view_of F.Filter.struck inspection.now points.now faces.now in
        let text = report_text v (entries_of lists.now) in
        output.new ≡ (if is_ok result then onto_page text output.old else output.old) }
{
    let mut page = Page::new(output);
    print_on(inspection, points, faces, lists, &mut page)?;
    Ok(page.len())
}

/// Prints the report on an empty page, which on a fault stays empty.
fn print_on<F: Filter>(
    inspection: &Inspection<F>,
    points: &[Point],
    faces: &[Face],
    lists: &Lists<'_>,
    page: &mut Page<'_>,
) -> Result<(), ReportFault>
    ensures fault { let checks = len_checks inspection.now.draft points.now faces.now in
        fault_notice notice_of_report result
        ≡ first_fit (checks (entries_of lists.now)) }
    ensures shown { let checks = len_checks inspection.now.draft points.now faces.now in
        let v = view_of F.Filter.struck inspection.now points.now faces.now in
        let text = report_text v (entries_of lists.now) in
        Filled page.old page.new (printed_unless (checks (entries_of lists.now)) text) }
    ensures short { let v = view_of F.Filter.struck inspection.now points.now faces.now in
        OnOk result (length (report_text v (entries_of lists.now)) < 2 ^ 40) }
{
    match print_report(inspection, points, faces, lists, page) {
        Ok(done) => done,
        Err(never) => match never {},
    }
}
