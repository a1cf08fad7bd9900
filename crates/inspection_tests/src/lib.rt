//! Tests of the crate `inspection` on examples.
#![tactic(auto)]

#[cfg(test)]
mod counting;
#[cfg(test)]
mod earliest_parts;
#[cfg(test)]
mod faults;
#[cfg(test)]
mod lists;
#[cfg(test)]
mod nothing;
#[cfg(test)]
mod offers;
#[cfg(test)]
mod plans;
#[cfg(test)]
mod refusals;
#[cfg(test)]
mod requests;
#[cfg(test)]
mod rooms;
#[cfg(test)]
mod slips;
#[cfg(test)]
mod windows;
