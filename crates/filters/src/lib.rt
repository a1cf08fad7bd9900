//! Filters: what a filter is and owes, three of them, any two in a row, the row that is delivered,
//! striking at a depth, and the window.
#![tactic(auto)]

mod boxes;
mod depths;
mod differences;
mod filter;
mod first_parts;
mod lanes;
mod parts;
mod planes;
mod rows;
mod slabs;
mod spans;
mod tests;
mod vectors;
mod windows;

pub use boxes::BoxFilter;
pub use depths::struck_at;
pub use filter::Filter;
pub use first_parts::{Earliest, earliest_at};
pub use parts::{parts_at, parts_table};
pub use planes::{PlaneFilter, controls};
pub use rows::{DELIVERED, Delivered, Row, delivered_filter};
pub use slabs::SlabFilter;
pub use tests::Test;
pub use windows::window_at;
