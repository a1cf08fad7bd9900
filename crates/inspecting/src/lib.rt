//! The program `inspect`: its command line, and the runs that it asks for.
#![tactic(auto)]

mod command;
mod frame_files;
mod paths;
mod runs;

pub use command::inspect_command;
pub use paths::FramePaths;
pub use runs::{inspect_on_disk, status};
