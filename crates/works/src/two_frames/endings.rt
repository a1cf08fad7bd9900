// How a run from two frames ends.

use frames::{Difference, FrameFile};
use sheet::Notice;

/// How a run from two frames ends.
#[derive(Clone, Copy, Debug, PartialEq, Eq)]
pub enum FramesEnding {
    /// No pair was refused, so the whole sheet was inspected.
    Covered,
    /// So many of the near pairs were refused, and the others inspected.
    Refused(usize),
    /// The search for near pairs has this fault.
    Unsearched(Notice),
    /// A frame has this fault.
    Faulty(FrameFile, Notice),
    /// They are not frames of one sheet: they differ so.
    Different(Difference),
}
