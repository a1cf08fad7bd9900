// Why a report is refused.
ghost use Rattle.std.specs.Prelude.{◌≡◌};
ghost use Rattle.report.specs.Faults.{place_of, notice_of_report};

use motion::Kind;
use sheet::{Layer, Notice};

#[derive(Clone, Copy, Debug, PartialEq, Eq)]
pub enum ReportFault {
    /// A table has fewer rows than the sheet.
    TableTooShort,
    /// The entry of the list has a number that is not of the sheet.
    NotOfTheSheet(u32, Kind),
    /// The output is too short for the report.
    OutputTooShort,
}

/// How a place tells a list.
fn place(list: Kind) -> u32
    ensures { result ≡ place_of list }
{
    match list {
        Kind::Vf => 0,
        Kind::Ee => 1,
    }
}

impl ReportFault {
    /// The fault's number, layer and places.
    pub fn notice(self) -> Notice
        ensures { result ≡ notice_of_report self }
    {
        match self {
            ReportFault::TableTooShort => Notice::new(16, Layer::Report, 0, 0),
            ReportFault::NotOfTheSheet(entry, list) => Notice::new(
                19,
                Layer::Report,
                entry,
                place(list),
            ),
            ReportFault::OutputTooShort => Notice::new(23, Layer::Report, 0, 0),
        }
    }
}
