// What is offered.

/// What is offered to an inspection.
#[derive(Clone, Copy, Debug, PartialEq, Eq)]
pub enum Offering {
    /// Two faces, by their numbers from 0.
    Faces(u16, u16),
}
