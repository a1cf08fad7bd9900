//! Two frames of a sheet, each at a path: the step between them is recorded.
#![tactic(auto)]

mod paths;
mod programs;
mod runs;

pub use paths::Paths;
pub use programs::record_frames;
pub use runs::{record_on_disk, status};
