//! Finding near faces: a tree over the boxes that faces sweep, and all pairs of boxes that meet.
#![tactic(auto)]

mod boxes;
mod faults;
mod finding;
mod nodes;
mod pairs;
mod sides;

pub use boxes::SweptBox;
pub use faults::SearchFault;
pub use finding::find_near;
pub use nodes::Node;
pub use pairs::Pair;
