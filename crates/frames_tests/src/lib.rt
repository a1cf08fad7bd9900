//! Tests of the crate `frames` on examples: in a crate of their own, since a crate with tests is
//! proved twice.
#![tactic(auto)]

#[cfg(test)]
mod comparing;
#[cfg(test)]
mod failing;
#[cfg(test)]
mod recorded;
#[cfg(test)]
mod remembered;
#[cfg(test)]
mod stopped;
