//! An inspection of one step of a sheet: the names of its tests, the lists that they stand on, the
//! counts of their classes.
#![tactic(auto)]

mod classes;
mod classing;
mod entries;
mod faults;
mod inspections;
mod lists;
mod marks;
mod names;
mod offerings;
mod offers;
mod pairs;
mod requests;
mod reviewing;
mod sheets;
mod slips;
mod tests;

pub use classes::{Class, Counts, Tally};
pub use entries::Entry;
pub use faults::{OfferFault, OpeningFault, ReturnFault, StandingFault, TakingFault, WindowFault};
pub use inspections::{Closed, Inspection, Refused, Worked, inspect};
pub use lists::{List, Lists};
pub use marks::{Marked, Standing};
pub use names::{EeName, VfName};
pub use offerings::Offering;
pub use requests::{Answer, Request};
pub use reviewing::{SlipsOut, slips_out};
pub use sheets::Rows;
pub use slips::{Handed, RefusedSlip, Slip};
pub use tests::TestName;
