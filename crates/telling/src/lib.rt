//! What a run has to say in words, told on standard error: the fault that ended it, how two frames
//! differ, and refused pairs.
#![tactic(auto)]

mod differences;
mod faults;
mod lines;
mod refusals;

pub use differences::tell_difference;
pub use faults::tell_fault;
pub use refusals::tell_refused;
