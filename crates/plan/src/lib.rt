//! A fold plan: its three files, what its sheet and its step say, and its pairs in bytes.
#![tactic(auto)]

mod endings;
mod memory;
mod pairs;
mod plan_files;
mod reading;
mod tables;
mod telling;

pub use endings::Ending;
pub use memory::PlanBytes;
pub use pairs::{PairOfferings, offerings_in, pair_bytes, pair_offerings};
pub use plan_files::PlanFile;
pub use reading::read_plan;
pub use tables::PlanTables;
pub use telling::{notice_line, tell_fault};
