//! Tests of the crate `printout` on examples: in a crate of their own, since a crate with tests is proved twice.
#![tactic(auto)]

#[cfg(test)]
mod failing;
#[cfg(test)]
mod long;
#[cfg(test)]
mod pairs;
#[cfg(test)]
mod plans;
#[cfg(test)]
mod stopped;
