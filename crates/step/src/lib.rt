//! The record of a step: the moves of a sheet's points, laid onto a table or written from one.
#![tactic(auto)]

mod faults;
mod fields;
mod laying;
mod rows;
mod writing;

pub use faults::{Spot, StepFault, WriterFault};
pub use laying::lay;
pub use writing::{is_moving, record_len, record_limit, write};
