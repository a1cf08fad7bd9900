//! Tests of the crate `wording`: each sentence, written by hand. In a crate of their own, since a
//! crate with tests is proved twice.
#![tactic(auto)]

#[cfg(test)]
mod advice;
#[cfg(test)]
mod saying;
#[cfg(test)]
mod sentences;
