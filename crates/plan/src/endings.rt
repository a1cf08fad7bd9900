// How a run ends.

use sheet::Notice;

/// How a run ends.
#[derive(Clone, Copy, Debug, PartialEq, Eq)]
pub enum Ending {
    /// All was inspected and reported.
    Complete,
    /// This fault was told, which ends the run.
    Faulty(Notice),
}
