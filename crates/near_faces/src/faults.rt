// Why a search is refused.
ghost use Rattle.std.specs.Prelude.{◌≡◌};
ghost use Rattle.near_faces.specs.Searches.{notice_of_search};

use sheet::{Layer, Notice};

/// Of a search, in the order in which they are looked for.
#[derive(Clone, Copy, Debug, PartialEq, Eq)]
pub enum SearchFault {
    /// A table has fewer rows than the sheet.
    TableTooShort,
    /// The face names a point that there is not.
    NoSuchPoint(u16),
    /// The node table has fewer than 2·faces − 1 places; never for an empty sheet.
    TooFewNodes,
    /// There are more pairs than places for them.
    TooManyPairs,
}

impl SearchFault {
    /// The fault's number, layer and places.
    pub fn notice(self) -> Notice
        ensures { result ≡ notice_of_search self }
    {
        match self {
            SearchFault::TableTooShort => Notice::new(16, Layer::Search, 0, 0),
            SearchFault::NoSuchPoint(face) => Notice::new(19, Layer::Search, u32::from(face), 0),
            SearchFault::TooFewNodes => Notice::new(24, Layer::Search, 0, 0),
            SearchFault::TooManyPairs => Notice::new(25, Layer::Search, 0, 0),
        }
    }
}
