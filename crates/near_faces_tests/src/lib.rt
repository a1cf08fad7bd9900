//! Tests of the crate `near_faces` on examples: in a crate of their own, since a crate with tests is proved twice.
#![tactic(auto)]

#[cfg(test)]
mod found;
#[cfg(test)]
mod refused;
#[cfg(test)]
mod sheets;
