//! What faults and refusals say in words: the one home of these sentences, for the programs and for
//! the page.
#![tactic(auto)]

mod advice;
mod differences;
mod faults;
mod fields;
mod records;
mod refusals;
mod texts;

pub use differences::{counts_differ_words, face_differs_words};
pub use faults::fault_words;
pub use refusals::refused_words;
pub use texts::WORDS_ROOM;
