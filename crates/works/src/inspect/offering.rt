// Offering pairs, and telling those that are refused.
ghost use Rattle.std.specs.Prelude.{◌≡◌, ◌≤◌, [], ◌∷◌};
ghost use Rattle.inspection.specs.States.{state_of};
ghost use Rattle.plan.specs.PairBytes.{offerings_in};
ghost use Rattle.works.specs.inspect.inner.Progress.{Tells, Offers};

use filters::Filter;
use hosts::Host;
use inspection::{Inspection, Lists, Offering};
use plan::{notice_line, pair_bytes, pair_offerings};
use sheet::{Face, Notice, Point};

/// Offers the pairs that some bytes hold, in their order; of each that is refused its line is
/// printed and the pair stored.
#[tactic(auto, using(crate::proofs::of_a_plan::Offers::none_offered, crate::proofs::of_a_plan::Offers::offers_then, crate::proofs::of_a_plan::Offers::offers_short, std::proofs::Common::append_assoc))]
pub(crate) fn offer_pairs<F: Filter, H: Host>(
    inspection: &mut Inspection<F>,
    points: &[Point],
    faces: &[Face],
    lists: &mut Lists<'_>,
    pairs: &[u8],
    host: &mut H,
) -> Result<(), H::Error>
    ensures offers { Offers H.does H.fails (F.Filter.struck inspection.old.filter)
        points.now faces.now (offerings_in pairs.now)
        (state_of inspection.old lists.old) (state_of inspection.new lists.new)
        host.old result host.new }
    ensures filter { inspection.new.filter ≡ inspection.old.filter }
    ensures less { H.most host.new ≤ H.most host.old }
{
    for what in pair_offerings(pairs) {
        offer_pair(inspection, points, faces, lists, what, host)?;
    }
    Ok(())
}

/// Offers a pair.
#[tactic(auto, using(crate::proofs::of_a_plan::Offers::offer_accepted, crate::proofs::of_a_plan::Offers::offer_refused))]
pub(crate) fn offer_pair<F: Filter, H: Host>(
    inspection: &mut Inspection<F>,
    points: &[Point],
    faces: &[Face],
    lists: &mut Lists<'_>,
    what: Offering,
    host: &mut H,
) -> Result<(), H::Error>
    ensures offers { Offers H.does H.fails (F.Filter.struck inspection.old.filter)
        points.now faces.now (what ∷ [])
        (state_of inspection.old lists.old) (state_of inspection.new lists.new)
        host.old result host.new }
    ensures filter { inspection.new.filter ≡ inspection.old.filter }
    ensures less { H.most host.new ≤ H.most host.old }
{
    match inspection.offer(points, faces, lists, what) {
        Ok(()) => Ok(()),
        Err(fault) => tell_refusal(host, fault.notice(), what),
    }
}

/// Prints why a pair is refused, and stores the pair.
#[tactic(auto, using(crate::proofs::of_a_plan::Offers::tells, crate::proofs::of_a_plan::Offers::tells_short))]
fn tell_refusal<H: Host>(host: &mut H, notice: Notice, what: Offering) -> Result<(), H::Error>
    ensures told { Tells H.does H.fails notice what host.old result host.new }
    ensures less { H.most host.new ≤ H.most host.old }
{
    host.print(notice_line(notice).as_str().as_bytes())?;
    host.store(&pair_bytes(what))
}
