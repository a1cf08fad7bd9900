// What the program `inspect` does with a plan: what it prints, what it stores and how it ends.
mod memory;
mod offering;
mod pairs;
mod plans;
mod rows;
mod tables;

pub use self::memory::{Inspected, inspect_bytes};
pub use self::plans::inspect_plan;
pub(crate) use self::rows::inspect_rows;
pub use self::tables::Tables;
