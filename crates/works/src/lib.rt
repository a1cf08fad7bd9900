//! The works of `inspect`, over any host: on a plan in a folder, and from two frames.
#![tactic(auto)]

pub mod inspect;
pub mod two_frames;
