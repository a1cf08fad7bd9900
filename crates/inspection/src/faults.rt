// Why a call of an inspection, or about a slip, is refused.
ghost use Rattle.std.specs.Prelude.{◌≡◌};
ghost use Rattle.inspection.specs.Faults.{notice_of_opening, notice_of_offer, notice_of_window, notice_of_taking, notice_of_return, notice_of_standing};

use sheet::{Layer, Notice};

/// Of an opening, and of a depth that is set later.
#[derive(Clone, Copy, Debug, PartialEq, Eq)]
pub enum OpeningFault {
    /// The depth is over 6.
    TooDeep(u8),
}

#[derive(Clone, Copy, Debug, PartialEq, Eq)]
pub enum OfferFault {
    /// A table has fewer rows than the sheet.
    TableTooShort,
    /// There is no face with this number.
    NoSuchFace(u16),
    /// The same face twice.
    SameFace(u16),
    /// The face names a point that there is not.
    NoSuchPoint(u16),
    /// A million offers are accepted already.
    TooManyOffers,
    /// A list has less room than there are new entries.
    ListFull,
}

#[derive(Clone, Copy, Debug, PartialEq, Eq)]
pub enum WindowFault {
    /// A table has fewer rows than the sheet.
    TableTooShort,
    /// There is no entry with this number.
    NoSuchEntry(u32),
    /// The entry has a number that is not of the sheet.
    NotOfTheSheet(u32),
}

/// Why an entry cannot be taken.
#[derive(Clone, Copy, Debug, PartialEq, Eq)]
pub enum TakingFault {
    /// Reviewers have the numbers 1 to 8.
    NoSuchReviewer(u8),
    /// There is no entry with this number.
    NoSuchEntry(u32),
    /// The entry is taken or seen.
    NotFree(u32),
}

/// Why a slip is not accepted.
#[derive(Clone, Copy, Debug, PartialEq, Eq)]
pub enum ReturnFault {
    /// There is no entry with this number.
    NoSuchEntry(u32),
    /// The entry is not taken by the slip's reviewer.
    NotTaken(u32),
}

/// Why it cannot be told how an entry stands.
#[derive(Clone, Copy, Debug, PartialEq, Eq)]
pub enum StandingFault {
    /// There is no entry with this number.
    NoSuchEntry(u32),
}

impl OpeningFault {
    /// The fault's number, layer and places.
    pub fn notice(self) -> Notice
        ensures { result ≡ notice_of_opening self }
    {
        match self {
            OpeningFault::TooDeep(depth) => Notice::new(15, Layer::Opening, u32::from(depth), 0),
        }
    }
}

impl OfferFault {
    /// The fault's number, layer and places.
    pub fn notice(self) -> Notice
        ensures { result ≡ notice_of_offer self }
    {
        match self {
            OfferFault::TableTooShort => Notice::new(16, Layer::Offer, 0, 0),
            OfferFault::NoSuchFace(face) => Notice::new(17, Layer::Offer, u32::from(face), 0),
            OfferFault::SameFace(face) => Notice::new(18, Layer::Offer, u32::from(face), 0),
            OfferFault::NoSuchPoint(face) => Notice::new(19, Layer::Offer, u32::from(face), 0),
            OfferFault::TooManyOffers => Notice::new(20, Layer::Offer, 0, 0),
            OfferFault::ListFull => Notice::new(21, Layer::Offer, 0, 0),
        }
    }
}

impl WindowFault {
    /// The fault's number, layer and places.
    pub fn notice(self) -> Notice
        ensures { result ≡ notice_of_window self }
    {
        match self {
            WindowFault::TableTooShort => Notice::new(16, Layer::Window, 0, 0),
            WindowFault::NoSuchEntry(entry) => Notice::new(22, Layer::Window, entry, 0),
            WindowFault::NotOfTheSheet(entry) => Notice::new(19, Layer::Window, entry, 0),
        }
    }
}

impl TakingFault {
    /// The fault's number, layer and places.
    pub fn notice(self) -> Notice
        ensures { result ≡ notice_of_taking self }
    {
        match self {
            TakingFault::NoSuchReviewer(reviewer) => {
                Notice::new(26, Layer::Slip, u32::from(reviewer), 0)
            }
            TakingFault::NoSuchEntry(entry) => Notice::new(22, Layer::Slip, entry, 0),
            TakingFault::NotFree(entry) => Notice::new(27, Layer::Slip, entry, 0),
        }
    }
}

impl ReturnFault {
    /// The fault's number, layer and places.
    pub fn notice(self) -> Notice
        ensures { result ≡ notice_of_return self }
    {
        match self {
            ReturnFault::NoSuchEntry(entry) => Notice::new(22, Layer::Slip, entry, 0),
            ReturnFault::NotTaken(entry) => Notice::new(28, Layer::Slip, entry, 0),
        }
    }
}

impl StandingFault {
    /// The fault's number, layer and places.
    pub fn notice(self) -> Notice
        ensures { result ≡ notice_of_standing self }
    {
        match self {
            StandingFault::NoSuchEntry(entry) => Notice::new(22, Layer::Slip, entry, 0),
        }
    }
}
