// An inspection of two frames by the system.
ghost use Rattle.std.specs.Prelude.{◌≤◌};

use crate::paths::FramePaths;
use crate::runs::{inspect_on_disk, status};
use frames::FrameFile;
use near_faces::Pair;
use pairing::PAIR_LIMIT;
use std::alloc::AllocError;
use system::{Machine, OnDisk, Table, site_name, tell};
use telling::{tell_difference, tell_fault, tell_refused};
use works::two_frames::{FramesEnding, Tables};

/// What can be done about pairs that are refused.
const SEE_HELP: &str =
    " Where a list was full (fault 21), `inspect --help` says how they get runs of their own.";

/// Inspects the step between the frames at two paths: the exit status. What stops the run is told, a
/// fault and a difference in words, and how many pairs were refused.
pub(crate) fn inspect_files(rt: &HostRuntime, start: &str, end: &str) -> u8
    ensures { result ≤ 1 }
{
    let alloc = rt.alloc();
    let (Ok(paths), Ok(mut near)) = (
        FramePaths::of(alloc, start, end),
        Table::<Pair, PAIR_LIMIT>::new(alloc, Pair::default()),
    ) else {
        tell(rt, "memory", "out of memory");
        return 1;
    };
    let disk = match Machine::new(*rt, None) {
        Ok(disk) => disk,
        Err(failure) => {
            tell(rt, site_name(&paths, failure.site), failure.reason);
            return 1;
        }
    };
    let mut tables = Tables::new();
    let mut frames = OnDisk::new(disk, paths);
    let run = inspect_on_disk(&mut tables, near.rows(), &mut frames);
    match &run {
        Err(failure) => tell(rt, site_name(&frames.paths, failure.site), failure.reason),
        Ok(ending) => tell_ending(rt, &frames.paths, *ending),
    }
    status(&run)
}

/// Tells in words what an ending leaves to say.
fn tell_ending(rt: &HostRuntime, paths: &FramePaths, ending: FramesEnding) {
    let (start, end) = (paths.start.as_str(), paths.end.as_str());
    match ending {
        FramesEnding::Covered => {}
        FramesEnding::Refused(count) => {
            let _ = tell_refused_of(rt, start, end, count);
        }
        // the search is over the sheet of the first frame
        FramesEnding::Unsearched(fault) | FramesEnding::Faulty(FrameFile::Start, fault) => {
            tell_fault(rt, start, fault);
        }
        FramesEnding::Faulty(FrameFile::End, fault) => tell_fault(rt, end, fault),
        FramesEnding::Different(difference) => tell_difference(rt, start, end, difference),
    }
}

fn tell_refused_of(
    rt: &HostRuntime,
    start: &str,
    end: &str,
    count: usize,
) -> Result<(), AllocError> {
    let name = format!(in rt.alloc(); "{start}, {end}")?;
    tell_refused(rt, name.as_str(), count as u64, SEE_HELP);
    Ok(())
}
