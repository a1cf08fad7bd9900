// An inspection from two frames of one sheet: what `record`, `near` and `inspect` give, one after
// the other, with nothing between them typed by hand.
mod endings;
mod lines;
mod memory;
mod runs;
mod tables;
mod telling;

pub use self::endings::FramesEnding;
pub use self::memory::{Accounted, inspect_texts};
pub use self::runs::inspect_frames;
pub use self::tables::Tables;
