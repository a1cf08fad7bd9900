//! Tests of the crate `filters` on examples.
#![tactic(auto)]

#[cfg(test)]
mod bounds;
#[cfg(test)]
mod cases;
#[cfg(test)]
mod counting;
#[cfg(test)]
mod parts;
#[cfg(test)]
mod shapes;
