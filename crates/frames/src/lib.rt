//! Two frames of one sheet are read, and give the step between them; and the work of the program
//! `record`: its record is stored and told.
#![tactic(auto)]

mod comparing;
mod frame_files;
mod lines;
mod memory;
mod reading;
mod recording;
mod tables;
mod telling;

pub use comparing::{Difference, compare_frames, end_at, moving};
pub use frame_files::{FrameFile, NoStep, Recording};
pub use memory::{FrameTexts, Recorded, record_frames};
pub use reading::read_frames;
pub use recording::record_step;
pub use tables::Tables;
pub use telling::{print_no_step, print_step};
