// A whole run: a plan is read, and then its pairs are offered.
ghost use Rattle.works.specs.inspect.Outcomes.{Inspects};

use crate::inspect::pairs::inspect_pairs;
use crate::inspect::tables::Tables;
use hosts::Host;
use plan::{Ending, PlanFile, read_plan, tell_fault};

/// Inspects a plan over a host: reads the files that are needed, in their order, prints what is
/// found as it is found, and stores the pairs that are refused.
///
/// A fault of the sheet or of the step ends the run with its line. Of the pairs that are not
/// refused nobody can name a touch that is not printed.
#[tactic(auto, using(crate::proofs::of_a_plan::FileByFile::unread_plan, crate::proofs::of_a_plan::FileByFile::faulty_plan, crate::proofs::of_a_plan::FileByFile::accepted_plan))]
pub fn inspect_plan<H: Host<File = PlanFile>>(
    tables: &mut Tables,
    host: &mut H,
) -> Result<Ending, H::Error>
    ensures { Inspects H.does H.fails host.old result host.new }
{
    match read_plan(&mut tables.plan, host)? {
        Ok(draft) => inspect_pairs(draft, tables, host),
        Err(notice) => tell_fault(notice, host),
    }
}
