// The two files, and what comes of them.

use crate::comparing::Difference;
use sheet::Notice;

/// The frames at the start and at the end of a step.
#[derive(Clone, Copy, Debug, PartialEq, Eq)]
pub enum FrameFile {
    Start,
    End,
}

/// Why there is no step between two frames.
#[derive(Clone, Copy, Debug, PartialEq, Eq)]
pub enum NoStep {
    /// A frame has this fault.
    Faulty(FrameFile, Notice),
    /// They are not frames of one sheet: they differ so.
    Different(Difference),
}

/// What comes of recording the step between two frames.
#[derive(Clone, Copy, Debug, PartialEq, Eq)]
pub enum Recording {
    /// The record of the step between them is stored.
    Recorded,
    /// A frame has this fault.
    Faulty(FrameFile, Notice),
    /// They are not frames of one sheet: they differ so.
    Different(Difference),
}
