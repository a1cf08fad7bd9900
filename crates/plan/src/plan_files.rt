// The files of a plan.

/// The files of a plan.
#[derive(Clone, Copy, Debug, PartialEq, Eq)]
pub enum PlanFile {
    Sheet,
    Step,
    Pairs,
}
