// What can be asked of an inspection, and its answers.
use crate::faults::{OfferFault, OpeningFault, WindowFault};
use crate::offerings::Offering;
use filters::Earliest;
use motion::Kind;

/// One call of an inspection.
#[derive(Clone, Copy, Debug, PartialEq, Eq)]
pub enum Request {
    /// The depth is to be this.
    SetDepth(u8),
    /// This is offered.
    Offer(Offering),
    /// The window of an entry of one list.
    Window(Kind, u32),
    /// The earliest part of the step that may have a touch, of an entry of one list.
    Earliest(Kind, u32),
}

/// What the call answered.
#[derive(Clone, Copy, Debug, PartialEq, Eq)]
pub enum Answer {
    DepthSet(Result<(), OpeningFault>),
    Offered(Result<(), OfferFault>),
    Window(Result<Option<(u8, u8)>, WindowFault>),
    Earliest(Result<Earliest, WindowFault>),
}
