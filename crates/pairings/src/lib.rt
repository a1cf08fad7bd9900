//! The files of a fold plan in a folder, of which the pairs are made: the near pairs of its faces.
#![tactic(auto)]

mod paths;
mod programs;
mod runs;

pub use paths::Paths;
pub use programs::pair_folder;
pub use runs::pair_on_disk;
