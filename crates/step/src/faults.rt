// What is wrong with a record, or with the tables that a call was lent.
ghost use Rattle.std.specs.Prelude.{◌≡◌};
ghost use Rattle.sheet.specs.Checks.{notice};
ghost use Rattle.step.specs.Faults.{notice_of_step, notice_of_writer};

use sheet::{Layer, Notice};

/// A spot in a record: the point, and its field, 1 to 3 for x, y, z, or 0 for the map.
#[derive(Clone, Copy, Debug, PartialEq, Eq)]
pub struct Spot {
    pub point: u32,
    pub field: u8,
}

#[derive(Clone, Copy, Debug, PartialEq, Eq)]
pub enum StepFault {
    /// The table has fewer rows than the draft has points.
    TableTooShort,
    /// The record ends before this field.
    EndsEarly(Spot),
    /// The map has a bit that no axis has.
    MapTooLarge(Spot),
    /// The field is there, and the move is nothing.
    MoveOfZero(Spot),
    /// The end is outside the range of a coordinate.
    EndOutside(Spot),
    /// Bytes follow the last point.
    BytesLeft,
}

#[derive(Clone, Copy, Debug, PartialEq, Eq)]
pub enum WriterFault {
    /// The table has fewer rows than the draft has points.
    TableTooShort,
    /// The output has no room for the record.
    OutputTooShort,
}

/// The spot of a fault that has none.
const NO_SPOT: Spot = Spot { point: 0, field: 0 };

impl Spot {
    fn notice(self, number: u8, layer: Layer) -> Notice
        ensures { result ≡ notice number layer self.point self.field }
    {
        Notice::new(number, layer, self.point, u32::from(self.field))
    }
}

impl StepFault {
    /// The fault's number, layer and places.
    pub fn notice(self) -> Notice
        ensures { result ≡ notice_of_step self }
    {
        match self {
            StepFault::TableTooShort => NO_SPOT.notice(13, Layer::Step),
            StepFault::EndsEarly(spot) => spot.notice(8, Layer::Step),
            StepFault::MapTooLarge(spot) => spot.notice(9, Layer::Step),
            StepFault::MoveOfZero(spot) => spot.notice(10, Layer::Step),
            StepFault::EndOutside(spot) => spot.notice(11, Layer::Step),
            StepFault::BytesLeft => NO_SPOT.notice(12, Layer::Step),
        }
    }
}

impl WriterFault {
    /// The fault's number, layer and places.
    pub fn notice(self) -> Notice
        ensures { result ≡ notice_of_writer self }
    {
        match self {
            WriterFault::TableTooShort => NO_SPOT.notice(13, Layer::Writer),
            WriterFault::OutputTooShort => NO_SPOT.notice(14, Layer::Writer),
        }
    }
}
