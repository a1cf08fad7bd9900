// A search for pairs by the system.
ghost use Rattle.std.specs.Prelude.{◌≤◌};

use crate::paths::Paths;
use crate::runs::pair_on_disk;
use near_faces::Pair;
use pairing::{PAIR_BYTES, PAIR_LIMIT, Tables};
use plan::Ending;
use plans::{status, tell_plan_fault};
use system::{Machine, OnDisk, Table, may_store, site_name, tell};

/// Finds the pairs of the plan in a folder and stores them there: the exit status. What stops the run
/// is told, a fault in words.
pub fn pair_folder(rt: &HostRuntime, folder: &str) -> u8
    ensures { result ≤ 1 }
{
    let alloc = rt.alloc();
    let (Ok(paths), Ok(mut near), Ok(mut bytes)) = (
        Paths::in_folder(alloc, folder),
        Table::<Pair, PAIR_LIMIT>::new(alloc, Pair::default()),
        Table::<u8, PAIR_BYTES>::new(alloc, 0),
    ) else {
        tell(rt, "memory", "out of memory");
        return 1;
    };
    let inputs = [paths.plan.sheet.as_str(), paths.plan.step.as_str()];
    if !may_store(rt, paths.plan.pairs.as_str(), &inputs) {
        return 1;
    }
    let mut tables = Tables::new();
    let disk = match Machine::new(*rt, None) {
        Ok(disk) => disk,
        Err(failure) => {
            tell(rt, site_name(&paths, failure.site), failure.reason);
            return 1;
        }
    };
    let mut plan = OnDisk::new(disk, paths);
    let run = pair_on_disk(&mut tables, near.rows(), bytes.rows(), &mut plan);
    match &run {
        Err(failure) => tell(rt, site_name(&plan.paths, failure.site), failure.reason),
        Ok(Ending::Faulty(fault)) => tell_plan_fault(rt, &plan.paths.plan, *fault),
        Ok(Ending::Complete) => {}
    }
    status(&run)
}
