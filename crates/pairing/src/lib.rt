//! The work of the program `near`: the pairs of faces to inspect are found in a plan's sheet and its
//! step, stored and told.
#![tactic(auto)]

mod finding;
mod lines;
mod memory;
mod plans;
mod tables;
mod writing;

pub use finding::{find_pairs, print_pairs};
pub use memory::{Paired, pair_in_memory};
pub use plans::pair_plan;
pub use tables::{NODE_LIMIT, PAIR_BYTES, PAIR_LIMIT, Tables};
