// The report, printed line by line.
ghost use Rattle.std.specs.Prelude.{◌≡◌, ◌^◌, ◌*◌, ◌<◌, ◌≤◌, length, None, flat_map, IfOk, OnOk, OnErr};
ghost use Rattle.sheet.specs.Checks.{first_fit, fault_notice};
ghost use Rattle.inspection.specs.Claims.{Findings};
ghost use Rattle.inspection.specs.Sheets.{sheet_of_rows};
ghost use Rattle.inspection.specs.States.{entries_of, state_of};
ghost use Rattle.hosts.specs.Writing.{Prints};
ghost use Rattle.report.specs.Faults.{notice_of_report};
ghost use Rattle.report.specs.Reports.{view_of, view_over, numbered_entries, entry_line, section, len_checks, report_text, printed_unless};

use crate::checking::check_lists;
use crate::faults::ReportFault;
use crate::lines::{HasLine, ReportLine, count_line};
use crate::numbering::numbered;
use filters::Filter;
use hosts::Host;
use inspection::{Inspection, List, Lists, Rows, Tally};
use sheet::{Face, Point};

/// Prints what stands on the lists and what was counted, line by line; on a fault of the report
/// it prints nothing. Each entry's window is looked for once.
///
/// With the report comes the claim: of what is on no list nobody can name a touch (`claim`).
#[tactic(auto, using(hosts::proofs::Printing::nothing_printed))]
pub fn print_report<F: Filter, H: Host>(
    inspection: &Inspection<F>,
    points: &[Point],
    faces: &[Face],
    lists: &Lists<'_>,
    host: &mut H,
) -> Result<Result<(), ReportFault>, H::Error>
    ensures fault { let checks = len_checks inspection.now.draft points.now faces.now in
        IfOk result (λ r. fault_notice notice_of_report r
        ≡ first_fit (checks (entries_of lists.now))) }
    ensures failed { let checks = len_checks inspection.now.draft points.now faces.now in
        OnErr result (None ≡ first_fit (checks (entries_of lists.now))) }
    ensures printed { let checks = len_checks inspection.now.draft points.now faces.now in
        let v = view_of F.Filter.struck inspection.now points.now faces.now in
        let text = report_text v (entries_of lists.now) in
        let all = printed_unless (checks (entries_of lists.now)) text in
        Prints H.does H.fails all host.old result host.new }
    ensures claim { IfOk result (λ r.
        OnOk r (Findings (F.Filter.struck inspection.now.filter)
        (state_of inspection.now lists.now))) }
    ensures short { let checks = len_checks inspection.now.draft points.now faces.now in
        let v = view_of F.Filter.struck inspection.now points.now faces.now in
        let text = report_text v (entries_of lists.now) in
        let all = printed_unless (checks (entries_of lists.now)) text in
        OnOk result (length all < 2 ^ 40) }
{
    let Some(rows) = inspection.rows(points, faces) else {
        return Ok(Err(ReportFault::TableTooShort));
    };
    if let Err(fault) = check_lists(rows, lists) {
        return Ok(Err(fault));
    }
    print_lists(inspection, rows, lists, host)?;
    Ok(Ok(()))
}

/// Prints the lines of both lists.
#[tactic(auto, using(hosts::proofs::Printing::printed_then, hosts::proofs::Printing::printed_short), unfolding(crate::specs::Reports::report_text))]
fn print_lists<F: Filter, H: Host>(
    inspection: &Inspection<F>,
    rows: Rows<'_>,
    lists: &Lists<'_>,
    host: &mut H,
) -> Result<(), H::Error>
    ensures printed { let v = view_over F.Filter.struck inspection.now (sheet_of_rows rows.entry) in
        let text = report_text v (entries_of lists.now) in
        Prints H.does H.fails text host.old result host.new }
    ensures claim { OnOk result (Findings (F.Filter.struck inspection.now.filter)
        (state_of inspection.now lists.now)) }
    ensures short { let v = view_over F.Filter.struck inspection.now (sheet_of_rows rows.entry) in
        OnOk result (length (report_text v (entries_of lists.now)) < 2 ^ 40) }
{
    let counts = inspection.findings(lists);
    print_section(inspection, rows, &lists.vf, counts.vf, host)?;
    print_section(inspection, rows, &lists.ee, counts.ee, host)
}

/// Prints the lines of a list and of its counts.
#[tactic(auto, using(hosts::proofs::Printing::printed_then, hosts::proofs::Printing::printed_short))]
fn print_section<F: Filter, E: HasLine, H: Host>(
    inspection: &Inspection<F>,
    rows: Rows<'_>,
    list: &List<'_, E>,
    tally: Tally,
    host: &mut H,
) -> Result<(), H::Error>
    ensures printed { let v = view_over F.Filter.struck inspection.now (sheet_of_rows rows.entry) in
        let lines = section E.TestName.naming E.HasLine.kind v E.HasLine.line in
        Prints H.does H.fails (lines list.now.entries tally) host.old result host.new }
    ensures short { let v = view_over F.Filter.struck inspection.now (sheet_of_rows rows.entry) in
        let lines = section E.TestName.naming E.HasLine.kind v E.HasLine.line in
        OnOk result (length (lines list.now.entries tally) ≤ 96 * 4294967297) }
{
    print_entries(inspection, rows, list, host)?;
    print_line(host, &count_line(E::kind(), tally))
}

/// Prints the lines of the entries.
fn print_entries<F: Filter, E: HasLine, H: Host>(
    inspection: &Inspection<F>,
    rows: Rows<'_>,
    list: &List<'_, E>,
    host: &mut H,
) -> Result<(), H::Error>
    ensures printed { let v = view_over F.Filter.struck inspection.now (sheet_of_rows rows.entry) in
        let line = entry_line E.TestName.naming v E.HasLine.line in
        let text = flat_map line (numbered_entries list.now.entries) in
        Prints H.does H.fails text host.old result host.new }
    ensures short { let v = view_over F.Filter.struck inspection.now (sheet_of_rows rows.entry) in
        let line = entry_line E.TestName.naming v E.HasLine.line in
        OnOk result (length (flat_map line (numbered_entries list.now.entries)) ≤ 96 * 4294967296) }
{
    for e in numbered(list) {
        print_entry(inspection, rows, e.name, host)?;
    }
    Ok(())
}

/// Prints the line of an entry, with its window at the depth now set.
fn print_entry<F: Filter, E: HasLine, H: Host>(
    inspection: &Inspection<F>,
    rows: Rows<'_>,
    e: E,
    host: &mut H,
) -> Result<(), H::Error>
    ensures printed { let v = view_over F.Filter.struck inspection.now (sheet_of_rows rows.entry) in
        let text = entry_line E.TestName.naming v E.HasLine.line e in
        Prints H.does H.fails text host.old result host.new }
    ensures short { let v = view_over F.Filter.struck inspection.now (sheet_of_rows rows.entry) in
        length (entry_line E.TestName.naming v E.HasLine.line e) ≤ 96 }
{
    let window = inspection.window_of(e, rows);
    print_line(host, &e.line(window))
}

#[tactic(auto, using(hosts::proofs::Printing::printed_at_once))]
fn print_line<H: Host>(host: &mut H, line: &ReportLine) -> Result<(), H::Error>
    ensures { Prints H.does H.fails line.now.bytes host.old result host.new }
{
    host.print(line.as_str().as_bytes())
}
