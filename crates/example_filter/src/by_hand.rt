// An inspection with a filter of one's own, call by call.
ghost use Rattle.std.specs.Prelude.{◌≡◌, ◌↔◌, IsNone, IsSome, IfNone, IfSome};
ghost use Rattle.inspection.specs.declared.offerings.Offering.TheVariants.{Faces};
ghost use Rattle.inspection.specs.States.{core_of, emptied, state_of, state_at_start};
ghost use Rattle.inspection.specs.Offers.{OfferCall};
ghost use Rattle.example_filter.specs.ByHand.{fault_of_offer, counts_in, HandsBack, OfferedMeanwhile, Offered};

use filters::Filter;
use inspection::{
    Counts, Handed, Inspection, Lists, OfferFault, Offering, RefusedSlip, Slip, TakingFault,
    slips_out,
};
use motion::Kind;
use report::report;
use sheet::{Draft, Face, Point};

/// Offers two faces at depth 2, is refused twice, sets the depth to 3, asks for a window and for the
/// report, and offers them the other way round while a reviewer has the first entry.
///
/// The counts, or none where the first offer is refused. With them and the lists comes the whole
/// claim, from the contracts of these calls and nothing else of the inspection.
pub fn inspect_by_hand<F: Filter + Drop>(
    draft: Draft,
    filter: F,
    points: &[Point],
    faces: &[Face],
    lists: &mut Lists<'_>,
    first: u16,
    second: u16,
) -> Option<Counts>
    ensures refused { let set = F.Filter.struck filter in
        let start = state_at_start draft 2 lists.old in
        let fault = fault_of_offer set points.now faces.now (Faces first second) start in
        IsNone result ↔ IsSome fault }
    ensures lists_refused { IfNone result (lists.new ≡ emptied lists.old) }
    ensures offered { let set = F.Filter.struck filter in
        let start = state_at_start draft 2 lists.old in
        IfSome result (λ counts. Offered set points.now faces.now first second start counts
        lists.new) }
{
    let inspection = open(draft, filter, lists);
    let Some(mut inspection) = accepted(inspection, points, faces, lists, first, second) else {
        return None;
    };
    offer_in_vain(&mut inspection, points, faces, lists, first, second);
    let Ok(()) = inspection.set_depth(3) else {
        unreachable!()
    };
    let _ = inspection.window(points, faces, &lists.vf, 0);
    let mut output = [0; 96];
    let _ = report(&inspection, points, faces, lists, &mut output);
    let (_, counts) = offer_meanwhile(&mut inspection, points, faces, lists, first, second);
    Some(counts)
}

/// Opens at depth 2, which is never refused.
fn open<F: Filter + Drop>(draft: Draft, filter: F, lists: &mut Lists<'_>) -> Inspection<F>
    ensures state { state_of result lists.new
        ≡ state_at_start draft 2 lists.old }
    ensures filter { result.filter ≡ filter }
{
    let Ok(inspection) = Inspection::open(draft, filter, 2, lists) else {
        unreachable!()
    };
    inspection
}

/// The inspection after an offer, or none where that is refused.
#[tactic(auto, unfolding(crate::specs::ByHand::fault_of_offer))]
fn accepted<F: Filter + Drop>(
    mut inspection: Inspection<F>,
    points: &[Point],
    faces: &[Face],
    lists: &mut Lists<'_>,
    first: u16,
    second: u16,
) -> Option<Inspection<F>>
    ensures refused { let set = F.Filter.struck inspection.filter in
        let start = state_of inspection lists.old in
        let fault = fault_of_offer set points.now faces.now (Faces first second) start in
        IsNone result ↔ IsSome fault }
    ensures lists_refused { IfNone result (lists.new ≡ lists.old) }
    ensures call { let set = F.Filter.struck inspection.filter in
        let start = state_of inspection lists.old in
        IfSome result (λ i. OfferCall set points.now faces.now (Faces first second) start (Ok tt)
        (state_of i lists.new)) }
    ensures filter { IfSome result (λ i. i.filter ≡ inspection.filter) }
{
    let Ok(()) = inspection.offer(points, faces, lists, Offering::Faces(first, second)) else {
        return None;
    };
    Some(inspection)
}

/// Makes two offers that are refused: a face with itself, and two faces over a table that is cut
/// short before the first of them.
fn offer_in_vain<F: Filter>(
    inspection: &mut Inspection<F>,
    points: &[Point],
    faces: &[Face],
    lists: &mut Lists<'_>,
    first: u16,
    second: u16,
)
    ensures state { state_of inspection.new lists.new
        ≡ state_of inspection.old lists.old }
    ensures filter { inspection.new.filter ≡ inspection.old.filter }
{
    let _ = inspection.offer(points, faces, lists, Offering::Faces(first, first));
    let short = &faces[..faces.len().min(first as usize)];
    let _ = inspection.offer(points, short, lists, Offering::Faces(first, second));
}

/// Offers two faces the other way round while reviewer 1 has the first entry of the VF list, if there
/// is one that is free. It is handed in as seen: the answer to the offer, and the counts.
///
/// Whatever the calls answer, a run with no slip out goes on as one with no slip out, and has the
/// whole claim.
fn offer_meanwhile<F: Filter>(
    inspection: &mut Inspection<F>,
    points: &[Point],
    faces: &[Face],
    lists: &mut Lists<'_>,
    first: u16,
    second: u16,
) -> (Result<(), OfferFault>, Counts)
    ensures offered { OfferedMeanwhile (F.Filter.struck inspection.old.filter) points.now faces.now
        (Faces second first) (state_of inspection.old lists.old) result.0
        (state_of inspection.new lists.new) }
    ensures counts { result.1 ≡ counts_in (core_of inspection.new) }
    ensures filter { inspection.new.filter ≡ inspection.old.filter }
{
    let slip = Slip::take(Kind::Vf, 0, 1, lists);
    let answer = offer_turned(inspection, points, faces, lists, first, second);
    let _ = slips_out(lists);
    hand_back(slip, lists);
    (answer, inspection.findings(lists))
}

/// Offers two faces the other way round.
fn offer_turned<F: Filter>(
    inspection: &mut Inspection<F>,
    points: &[Point],
    faces: &[Face],
    lists: &mut Lists<'_>,
    first: u16,
    second: u16,
) -> Result<(), OfferFault>
    ensures call { OfferCall (F.Filter.struck inspection.old.filter) points.now faces.now
        (Faces second first) (state_of inspection.old lists.old) result
        (state_of inspection.new lists.new) }
    ensures filter { inspection.new.filter ≡ inspection.old.filter }
{
    inspection.offer(points, faces, lists, Offering::Faces(second, first))
}

/// Hands in a slip that was given, as seen. One that were refused would end here.
fn hand_back(slip: Result<Slip, TakingFault>, lists: &mut Lists<'_>)
    ensures { HandsBack slip lists.old lists.new }
{
    match slip {
        Ok(slip) => match slip.hand_in(Handed::Seen, lists) {
            Ok(()) => {}
            Err(RefusedSlip { slip, fault: _ }) => slip.void(),
        },
        Err(_) => {}
    }
}
