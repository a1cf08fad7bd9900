// What is wrong with a text, and where. Each layer carries the fault of the one below it whole.
ghost use Rattle.std.specs.Prelude.{◌≡◌};
ghost use Rattle.sheet.specs.Checks.{notice};
ghost use Rattle.sheet.specs.Faults.{notice_of_field, notice_of_line, notice_of_sheet};
ghost use Rattle.sheet.specs.declared.faults.LineFault.TheVariants.{Field};
ghost use Rattle.sheet.specs.declared.faults.SheetFault.TheVariants.{Line};

use crate::notices::{Layer, Notice};

/// A spot in a text: the line, counted from 1, and its field, 1 to 3, or 0 for the line as a
/// whole.
#[derive(Clone, Copy, Debug, PartialEq, Eq)]
pub struct Spot {
    pub line: u32,
    pub field: u8,
}

#[derive(Clone, Copy, Debug, PartialEq, Eq)]
pub enum FieldFault {
    /// The field is not an optional minus and one to five digits.
    NotANumber(Spot),
}

#[derive(Clone, Copy, Debug, PartialEq, Eq)]
pub enum LineFault {
    Field(FieldFault),
    /// The line begins with neither `v` nor `f` and a space.
    NoSuchStart(Spot),
    /// The coordinate is outside its range.
    CoordinateOutside(Spot),
    /// No point above the line has this number.
    NoSuchPoint(Spot),
    /// An earlier field of the line names the same point.
    NamedBefore(Spot),
}

#[derive(Clone, Copy, Debug, PartialEq, Eq)]
pub enum SheetFault {
    Line(LineFault),
    /// The text has more than 65,536 bytes.
    TextTooLong,
    /// The caller's table, or the sheet, has no room for the line's point or face.
    NoRoom(Spot),
}

impl From<FieldFault> for LineFault {
    ghost from_gives = { λ e r. r ≡ Field e };

    fn from(fault: FieldFault) -> LineFault {
        LineFault::Field(fault)
    }
}

impl From<LineFault> for SheetFault {
    ghost from_gives = { λ e r. r ≡ Line e };

    fn from(fault: LineFault) -> SheetFault {
        SheetFault::Line(fault)
    }
}

impl Spot {
    fn notice(self, number: u8, layer: Layer) -> Notice
        ensures { result ≡ notice number layer self.line self.field }
    {
        Notice::new(number, layer, self.line, u32::from(self.field))
    }
}

impl FieldFault {
    /// The fault's number, layer and places.
    pub fn notice(self) -> Notice
        ensures { result ≡ notice_of_field self }
    {
        match self {
            FieldFault::NotANumber(spot) => spot.notice(1, Layer::Field),
        }
    }
}

impl LineFault {
    /// The fault's number, layer and places.
    pub fn notice(self) -> Notice
        ensures { result ≡ notice_of_line self }
    {
        match self {
            LineFault::Field(fault) => fault.notice(),
            LineFault::NoSuchStart(spot) => spot.notice(2, Layer::Line),
            LineFault::CoordinateOutside(spot) => spot.notice(3, Layer::Line),
            LineFault::NoSuchPoint(spot) => spot.notice(4, Layer::Line),
            LineFault::NamedBefore(spot) => spot.notice(5, Layer::Line),
        }
    }
}

impl SheetFault {
    /// The fault's number, layer and places.
    pub fn notice(self) -> Notice
        ensures { result ≡ notice_of_sheet self }
    {
        match self {
            SheetFault::Line(fault) => fault.notice(),
            SheetFault::TextTooLong => Spot { line: 0, field: 0 }.notice(6, Layer::Sheet),
            SheetFault::NoRoom(spot) => spot.notice(7, Layer::Sheet),
        }
    }
}
