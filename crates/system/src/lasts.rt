// The last that is done on a disk after a work.
ghost use Rattle.system.specs.Deeds.{DoesAll};
ghost use Rattle.system.specs.Lasts.{deeds_of};

use crate::disks::Disk;

/// The last that is done on a disk after a work: what was printed is let out, and what was stored
/// for a path is kept, where one is named.
#[derive(Clone, Copy)]
pub enum Last<'a> {
    Flush,
    FlushThenKeep(&'a str),
    KeepThenFlush(&'a str),
}

/// Does the last.
#[tactic(auto, using(crate::proofs::Done::fails_first, crate::proofs::Done::does_one))]
pub(crate) fn finish<F, D: Disk<F>>(disk: &mut D, last: Last<'_>) -> Result<(), D::Error>
    ensures { DoesAll D.does D.fails (deeds_of last.entry) disk.old result disk.new }
{
    match last {
        Last::Flush => disk.flush(),
        Last::FlushThenKeep(path) => {
            disk.flush()?;
            disk.keep(path)
        }
        Last::KeepThenFlush(path) => {
            disk.keep(path)?;
            disk.flush()
        }
    }
}
