// The checks of an offer.
ghost use Rattle.std.specs.Prelude.{◌≡◌, ◌<◌, IfOk, OnOk};
ghost use Rattle.sheet.specs.Checks.{first_fit, fault_notice};
ghost use Rattle.inspection.specs.Faults.{notice_of_offer};
ghost use Rattle.inspection.specs.Sheets.{sheet_of_rows, sheet_in};
ghost use Rattle.inspection.specs.Offers.{checks_but_room};

use crate::faults::OfferFault;
use crate::offerings::Offering;
use crate::sheets::Rows;
use crate::tests::has_corners_below;
use sheet::{Draft, Face, Point};

/// An inspection accepts at most a million offers.
const OFFER_LIMIT: u32 = 1_000_000;

/// Makes every check of an offer but the last, which is whether the lists have room. Where none
/// fits it gives the rows of the sheet.
pub(crate) fn check_offer<'a>(
    draft: &Draft,
    points: &'a [Point],
    faces: &'a [Face],
    what: Offering,
    accepted: u32,
) -> Result<Rows<'a>, OfferFault>
    ensures fault { fault_notice notice_of_offer result
        ≡ first_fit (checks_but_room draft.now points.now faces.now what accepted) }
    ensures rows { IfOk result (λ r. sheet_of_rows r ≡ sheet_in draft.now points.now faces.now) }
    ensures few { OnOk result (accepted < 1000000) }
{
    let Some(rows) = Rows::of(draft, points, faces) else {
        return Err(OfferFault::TableTooShort);
    };
    let Offering::Faces(first, second) = what;
    if first >= draft.faces() {
        return Err(OfferFault::NoSuchFace(first));
    }
    if second >= draft.faces() {
        return Err(OfferFault::NoSuchFace(second));
    }
    if first == second {
        return Err(OfferFault::SameFace(first));
    }
    if !has_corners_below(rows.face(first), draft.points() as usize) {
        return Err(OfferFault::NoSuchPoint(first));
    }
    if !has_corners_below(rows.face(second), draft.points() as usize) {
        return Err(OfferFault::NoSuchPoint(second));
    }
    if accepted >= OFFER_LIMIT {
        return Err(OfferFault::TooManyOffers);
    }
    Ok(rows)
}
