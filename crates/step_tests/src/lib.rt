//! Tests of the crate `step` on examples: in a crate of their own, since a crate with tests is proved twice.
#![tactic(auto)]

#[cfg(test)]
mod drafts;
#[cfg(test)]
mod laying;
#[cfg(test)]
mod refused;
#[cfg(test)]
mod round_trips;
#[cfg(test)]
mod written;
