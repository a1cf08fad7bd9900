// A recording by the system.
ghost use Rattle.std.specs.Prelude.{◌≤◌};

use crate::paths::Paths;
use crate::runs::{record_on_disk, status};
use frames::{Recording, Tables};
use system::{FilePaths, Machine, OnDisk, may_store, site_name, tell};
use telling::{tell_difference, tell_fault};

/// Records the step between two frames: the exit status. What stops the run is told: a fault of a
/// frame, and how they differ, in words.
pub fn record_frames(rt: &HostRuntime, paths: Paths) -> u8
    ensures { result ≤ 1 }
{
    let inputs = [paths.start.as_str(), paths.end.as_str()];
    if !may_store(rt, paths.step.as_str(), &inputs) {
        return 1;
    }
    let disk = match Machine::new(*rt, None) {
        Ok(disk) => disk,
        Err(failure) => {
            tell(rt, site_name(&paths, failure.site), failure.reason);
            return 1;
        }
    };
    let mut tables = Tables::new();
    let mut frames = OnDisk::new(disk, paths);
    let run = record_on_disk(&mut tables, &mut frames);
    match &run {
        Err(failure) => tell(rt, site_name(&frames.paths, failure.site), failure.reason),
        Ok(Recording::Faulty(file, fault)) => tell_fault(rt, frames.paths.path(*file), *fault),
        Ok(Recording::Different(difference)) => {
            let Paths {
                start,
                end,
                step: _,
            } = &frames.paths;
            tell_difference(rt, start.as_str(), end.as_str(), *difference);
        }
        Ok(Recording::Recorded) => {}
    }
    status(&run)
}
