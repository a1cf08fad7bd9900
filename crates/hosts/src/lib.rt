//! Where a program's bytes come from and go to.
#![tactic(auto)]

mod copying;
mod hosts;
mod memories;
mod pages;
mod telling;

pub use copying::copy_front;
pub use hosts::Host;
pub use memories::{Files, Memory, read_front};
pub use pages::Page;
pub use telling::tell;
