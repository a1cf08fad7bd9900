//! Tests of two moving features as plain data, and their mathematics: what it means that two
//! features stay apart, the two laws that a filter owes, and the sets of three filters that keep
//! them.
#![tactic(auto)]

mod laws;
mod shapes;

pub use laws::{laws_hold, worked_cases};
pub use shapes::{Controls, Kind, Moving, Shape, V3};
