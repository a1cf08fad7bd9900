// A whole run over two frames.
ghost use Rattle.std.specs.Prelude.{◌≡◌};
ghost use Rattle.inspecting.specs.Runs.{InspectsOnDisk, frames_status};

use crate::paths::FramePaths;
use frames::FrameFile;
use near_faces::Pair;
use pairing::PAIR_LIMIT;
use system::{Disk, OnDisk};
use works::two_frames::{FramesEnding, Tables, inspect_frames};

/// Inspects the step between two frames that are placed on a disk, and lets out all that is printed.
pub fn inspect_on_disk<D: Disk<FrameFile>>(
    tables: &mut Tables,
    near: &mut [Pair; PAIR_LIMIT],
    frames: &mut OnDisk<D, FramePaths>,
) -> Result<FramesEnding, D::Error>
    ensures { InspectsOnDisk D.does D.fails frames.old result frames.new }
{
    let work = inspect_frames(tables, near, frames);
    frames.end(work)
}

/// The exit status after a run.
pub fn status<E>(run: &Result<FramesEnding, E>) -> u8
    ensures { result ≡ frames_status run.now }
{
    match run {
        Ok(FramesEnding::Covered | FramesEnding::Refused(_)) => 0,
        Ok(FramesEnding::Unsearched(_) | FramesEnding::Faulty(..) | FramesEnding::Different(_))
        | Err(_) => 1,
    }
}
