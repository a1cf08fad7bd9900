// A whole run over two frames.
ghost use Rattle.std.specs.Prelude.{◌≡◌};
ghost use Rattle.recordings.specs.Runs.{RecordsFrames, record_status};

use crate::paths::Paths;
use frames::{FrameFile, Recording, Tables, record_step};
use system::{Disk, OnDisk};

/// Records the step between two frames that are placed on a disk. A record that was stored is kept
/// before the line that tells it goes out.
pub fn record_on_disk<D: Disk<FrameFile>>(
    tables: &mut Tables,
    frames: &mut OnDisk<D, Paths>,
) -> Result<Recording, D::Error>
    ensures { RecordsFrames D.does D.fails frames.old result frames.new }
{
    let work = record_step(tables, frames);
    frames.end(work)
}

/// The exit status after a run.
pub fn status<E>(run: &Result<Recording, E>) -> u8
    ensures { result ≡ record_status run.now }
{
    match run {
        Ok(Recording::Recorded) => 0,
        Ok(Recording::Faulty(..) | Recording::Different(_)) | Err(_) => 1,
    }
}
