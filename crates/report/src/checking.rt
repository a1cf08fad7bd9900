// The checks of a report.
ghost use Rattle.std.specs.Prelude.{◌≡◌};
ghost use Rattle.sheet.specs.Checks.{first_fit, fault_notice};
ghost use Rattle.inspection.specs.Sheets.{sheet_of_rows};
ghost use Rattle.inspection.specs.States.{entries_of};
ghost use Rattle.report.specs.Faults.{notice_of_report};
ghost use Rattle.report.specs.Reports.{entry_checks, list_checks};

use crate::faults::ReportFault;
use crate::lines::HasLine;
use crate::numbering::numbered;
use inspection::{List, Lists, Rows};

/// The first entry of both lists that has a number which is not of the sheet.
#[tactic(auto, using(sheet::proofs::FirstFit::past, sheet::proofs::FirstFit::stop))]
pub(crate) fn check_lists(rows: Rows<'_>, lists: &Lists<'_>) -> Result<(), ReportFault>
    ensures { let checks = list_checks (sheet_of_rows rows.entry) (entries_of lists.now) in
        fault_notice notice_of_report result ≡ first_fit checks }
{
    check_entries(rows, &lists.vf)?;
    check_entries(rows, &lists.ee)
}

/// The first entry of a list that has such a number.
fn check_entries<E: HasLine>(rows: Rows<'_>, list: &List<'_, E>) -> Result<(), ReportFault>
    ensures { let checks = entry_checks E.TestName.naming E.HasLine.kind in
        fault_notice notice_of_report result
        ≡ first_fit (checks (sheet_of_rows rows.entry) list.now.entries) }
{
    for (i, e) in numbered(list).iter().enumerate() {
        if !e.name.is_inside(rows) {
            return Err(ReportFault::NotOfTheSheet(i as u32, E::kind()));
        }
    }
    Ok(())
}
