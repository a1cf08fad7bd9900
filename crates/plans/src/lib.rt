//! The files of a fold plan in a folder: read, inspected, and what comes of it printed and stored.
#![tactic(auto)]

mod paths;
mod programs;
mod runs;

pub use paths::Paths;
pub use programs::{inspect_folder, tell_plan_fault};
pub use runs::{inspect_on_disk, status};
