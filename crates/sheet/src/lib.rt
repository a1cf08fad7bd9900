//! A sheet of film: its points and faces, and the text that it is read from.
#![tactic(auto)]

mod counts;
mod cuts;
mod drafts;
mod faults;
mod fields;
mod lines;
mod notices;
mod reader;
mod rows;
mod splitting;

pub use drafts::Draft;
pub use faults::{FieldFault, LineFault, SheetFault, Spot};
pub use notices::{FaultLine, Layer, Notice};
pub use reader::{TEXT_LIMIT, read_sheet};
pub use rows::{COORDINATE_BOUND, Coords, FACE_LIMIT, Face, POINT_LIMIT, Point, coordinate_of};
