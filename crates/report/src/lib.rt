//! The report of an inspection: its lists, with the windows at the depth now set, and its counts,
//! in lines of text.
#![tactic(auto)]

mod checking;
mod faults;
mod lines;
mod numbering;
mod printing;
mod reporting;

pub use faults::ReportFault;
pub use printing::print_report;
pub use reporting::{report, report_len};
