// Where the frames and the record lie.
use frames::{FrameFile, Recording};
use system::{FilePaths, Last};

/// The paths of the two frames, and of the record.
#[derive(Drop)]
pub struct Paths {
    pub start: String,
    pub end: String,
    pub step: String,
}

impl FilePaths for Paths {
    ghost use Rattle.recordings.specs.FramePaths.{record_path, step_path, record_lasts};

    type File = FrameFile;

    type Answer = Recording;

    ghost path_of = { record_path };

    ghost target_of = { step_path };

    ghost lasts_of = { record_lasts };

    fn path(&self, file: FrameFile) -> &str {
        match file {
            FrameFile::Start => self.start.as_str(),
            FrameFile::End => self.end.as_str(),
        }
    }

    fn target(&self) -> Option<&str> {
        Some(self.step.as_str())
    }

    fn last(&self, recording: Recording) -> Last<'_> {
        match recording {
            Recording::Recorded => Last::KeepThenFlush(self.step.as_str()),
            Recording::Faulty(..) | Recording::Different(_) => Last::Flush,
        }
    }
}
