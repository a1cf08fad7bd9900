//! The disk and the terminal that a program's work is done on, and its command line.
#![tactic(auto)]

mod asking;
mod beside;
mod disks;
mod failures;
mod lasts;
mod machines;
mod on_disk;
mod printing;
mod progress;
mod reading;
mod tables;
mod targets;
mod words;

pub use asking::{About, given};
pub use disks::Disk;
pub use failures::{Failure, Site, tell};
pub use lasts::Last;
pub use machines::Machine;
pub use on_disk::{FilePaths, OnDisk, site_name};
pub use progress::Watched;
pub use tables::Table;
pub use targets::may_store;
pub use words::Given;
