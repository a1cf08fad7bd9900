//! The works of the programs as calls of a module in a browser's page: over bytes that the page lends,
//! and with no memory but that and their own stack. A call cannot fail.
#![tactic(auto)]

mod folder;
mod pairs;
mod room;
mod rows;
mod steps;
mod two;
mod words;
