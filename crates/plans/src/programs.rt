// An inspection by the system.
ghost use Rattle.std.specs.Prelude.{◌≤◌};

use crate::paths::Paths;
use crate::runs::{inspect_on_disk, status};
use plan::{Ending, PlanFile};
use sheet::{Layer, Notice};
use system::{FilePaths, Machine, OnDisk, Watched, may_store, site_name, tell};
use telling::{tell_fault, tell_refused};
use works::inspect::Tables;

/// What is told on a terminal: how many pairs are done.
const PAIRS: Watched<PlanFile> = Watched {
    file: PlanFile::Pairs,
    things: "pairs",
    size: 4,
};

/// What can be done about pairs that are refused.
const STORE_THEM: &str =
    " Where a list was full (fault 21), `inspect --refused FILE` stores them for a run of their own.";

/// Inspects the plan in a folder, and stores its refused pairs where a file is named for them: the
/// exit status. What stops the run is told, a fault in words, and how many pairs were refused.
pub fn inspect_folder(rt: &HostRuntime, folder: &str, refused: Option<String>) -> u8
    ensures { result ≤ 1 }
{
    let Ok(paths) = Paths::in_folder(rt.alloc(), folder, refused) else {
        tell(rt, "memory", "out of memory");
        return 1;
    };
    let inputs = [paths.path(PlanFile::Sheet), paths.path(PlanFile::Step)];
    if let Some(target) = paths.target()
        && !may_store(rt, target, &inputs)
    {
        return 1;
    }
    let disk = match Machine::new(*rt, Some(PAIRS)) {
        Ok(disk) => disk,
        Err(failure) => {
            tell(rt, site_name(&paths, failure.site), failure.reason);
            return 1;
        }
    };
    let mut tables = Tables::new();
    let mut plan = OnDisk::new(disk, paths);
    let run = inspect_on_disk(&mut tables, &mut plan);
    match &run {
        Err(failure) => tell(rt, site_name(&plan.paths, failure.site), failure.reason),
        Ok(Ending::Faulty(fault)) => tell_plan_fault(rt, &plan.paths, *fault),
        Ok(Ending::Complete) => {
            let advice = match plan.paths.refused {
                Some(_) => "",
                None => STORE_THEM,
            };
            let pairs = plan.paths.pairs.as_str();
            tell_refused(rt, pairs, plan.stored / PAIRS.size, advice);
        }
    }
    status(&run)
}

/// Tells a fault of a plan's sheet, of its step or of the search for its pairs.
pub fn tell_plan_fault(rt: &HostRuntime, paths: &Paths, fault: Notice) {
    let file = match fault.layer {
        Layer::Step => PlanFile::Step,
        _ => PlanFile::Sheet,
    };
    tell_fault(rt, paths.path(file), fault);
}
