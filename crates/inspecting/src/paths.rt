// Where the frames lie.
ghost use Rattle.std.specs.Prelude.{◌≡◌, string_bytes, IfOk};

use frames::FrameFile;
use std::alloc::{AllocError, Global};
use system::{FilePaths, Last};
use works::two_frames::FramesEnding;

/// The paths of the two frames.
#[derive(Drop)]
pub struct FramePaths {
    pub start: String,
    pub end: String,
}

impl FramePaths {
    /// Of the frames at two paths.
    pub fn of(alloc: Global, start: &str, end: &str) -> Result<FramePaths, AllocError>
        ensures start { IfOk result (λ p. string_bytes p.start ≡ start.now) }
        ensures end { IfOk result (λ p. string_bytes p.end ≡ end.now) }
    {
        Ok(FramePaths {
            start: format!(in alloc; "{start}")?,
            end: format!(in alloc; "{end}")?,
        })
    }
}

impl FilePaths for FramePaths {
    ghost use Rattle.inspecting.specs.FramePaths.{frame_path, no_target, frame_lasts};

    type File = FrameFile;

    type Answer = FramesEnding;

    ghost path_of = { frame_path };

    ghost target_of = { no_target };

    ghost lasts_of = { frame_lasts };

    fn path(&self, file: FrameFile) -> &str {
        match file {
            FrameFile::Start => self.start.as_str(),
            FrameFile::End => self.end.as_str(),
        }
    }

    fn target(&self) -> Option<&str> {
        None
    }

    fn last(&self, _ending: FramesEnding) -> Last<'_> {
        Last::Flush
    }
}
