// A whole run over a folder.
ghost use Rattle.std.specs.Prelude.{◌≡◌};
ghost use Rattle.plans.specs.Runs.{InspectsFolder, plan_status};

use crate::paths::Paths;
use plan::{Ending, PlanFile};
use system::{Disk, OnDisk};
use works::inspect::{Tables, inspect_plan};

/// Inspects the plan whose files are placed on a disk. At the end, or before an error is answered,
/// all that was printed goes out; then the refused pairs that were stored are kept.
pub fn inspect_on_disk<D: Disk<PlanFile>>(
    tables: &mut Tables,
    plan: &mut OnDisk<D, Paths>,
) -> Result<Ending, D::Error>
    ensures { InspectsFolder D.does D.fails plan.old result plan.new }
{
    let work = inspect_plan(tables, plan);
    plan.end(work)
}

/// The exit status after a run.
pub fn status<E>(run: &Result<Ending, E>) -> u8
    ensures { result ≡ plan_status run.now }
{
    match run {
        Ok(Ending::Complete) => 0,
        Ok(Ending::Faulty(_)) | Err(_) => 1,
    }
}
