// Offering the pairs of a plan's file.
ghost use Rattle.std.specs.Prelude.{◌≡◌, ◌<◌, ◌≤◌, ◌%◌, length, IfOk};
ghost use Rattle.sheet.specs.Sheet.{point_limit, face_limit};
ghost use Rattle.hosts.specs.Writing.{Prints};
ghost use Rattle.inspection.specs.Claims.{Findings};
ghost use Rattle.inspection.specs.States.{emptied, entries_of, state_of};
ghost use Rattle.report.specs.Reports.{view_of, report_text};
ghost use Rattle.works.specs.inspect.inner.Progress.{IsWhole, OffersPieces, Begins, Reportable, InspectsFile};
ghost use Rattle.works.specs.inspect.Walks.{room};
ghost use Rattle.plan.specs.declared.endings.Ending.TheVariants.{Complete};

use crate::inspect::offering::offer_pairs;
use crate::inspect::tables::Tables;
use filters::{Delivered, Filter, delivered_filter};
use hosts::Host;
use inspection::{EeName, Inspection, Lists, Marked, VfName};
use plan::{Ending, PlanFile};
use report::print_report;
use sheet::{Draft, Face, Point};

/// At which depth the tests are struck.
const DEPTH: u8 = 2;

/// For how many entries each list has room.
pub(crate) const ROOM: usize = 512;

/// Offers the pairs of the plan's file, a buffer at a time.
#[tactic(auto, using(crate::proofs::of_a_plan::FileOfPairs::begun, crate::proofs::of_a_plan::FileOfPairs::unread_piece, crate::proofs::of_a_plan::FileOfPairs::full_piece, crate::proofs::of_a_plan::FileOfPairs::last_piece, crate::proofs::of_a_plan::FileOfPairs::cut_piece))]
fn offer_file<F: Filter, H: Host<File = PlanFile>>(
    inspection: &mut Inspection<F>,
    points: &[Point],
    faces: &[Face],
    lists: &mut Lists<'_>,
    pairs: &mut [u8],
    host: &mut H,
) -> Result<(), H::Error>
    requires some { 0 < length pairs.old }
    requires whole { length pairs.old % 4 ≡ 0 }
    ensures offers { OffersPieces H.does H.fails IsWhole (F.Filter.struck inspection.old.filter)
        points.now faces.now
        (state_of inspection.old lists.old) (state_of inspection.new lists.new)
        host.old result host.new }
    ensures filter { inspection.new.filter ≡ inspection.old.filter }
{
    loop {
        let n = host.fill(PlanFile::Pairs, pairs)?;
        offer_pairs(inspection, points, faces, lists, &pairs[..n], host)?;
        // a piece that does not fill the buffer is the last
        if n < pairs.len() {
            return Ok(());
        }
    }
}

/// The run after the step: the pairs are offered in their order, and then the report is printed.
pub(crate) fn inspect_pairs<H: Host<File = PlanFile>>(
    draft: Draft,
    tables: &mut Tables,
    host: &mut H,
) -> Result<Ending, H::Error>
    requires points { draft.points ≤ point_limit }
    requires faces { draft.faces ≤ face_limit }
    ensures { InspectsFile H.does H.fails draft
        tables.old.plan.points tables.old.plan.faces
        host.old result host.new }
{
    let mut vf_table = [Marked::default(); ROOM];
    let mut ee_table = [Marked::default(); ROOM];
    let mut lists = lists_over(&mut vf_table, &mut ee_table);
    let mut inspection = open_plan(draft, &mut lists);
    offer_and_report(
        &mut inspection,
        &tables.plan.points,
        &tables.plan.faces,
        &mut lists,
        &mut tables.pairs,
        host,
    )
}

/// Lists over tables that have room for all entries that a list may have.
pub(crate) fn lists_over<'a>(
    vf: &'a mut [Marked<VfName>; ROOM],
    ee: &'a mut [Marked<EeName>; ROOM],
) -> Lists<'a>
    ensures vf { length (emptied result).vf.rest ≡ room }
    ensures ee { length (emptied result).ee.rest ≡ room }
{
    Lists::new(vf, ee)
}

/// Offers the pairs of the plan's file to an inspection that is just opened, and prints what it has
/// found then.
#[tactic(auto, using(crate::proofs::of_a_plan::FileOfPairs::ran_in_part, crate::proofs::of_a_plan::FileOfPairs::reportable, crate::proofs::of_a_plan::FileOfPairs::ran))]
fn offer_and_report<H: Host<File = PlanFile>>(
    inspection: &mut Inspection<Delivered>,
    points: &[Point],
    faces: &[Face],
    lists: &mut Lists<'_>,
    pairs: &mut [u8],
    host: &mut H,
) -> Result<Ending, H::Error>
    requires begins { Begins inspection.old.draft (state_of inspection.old lists.old) }
    requires points { inspection.old.draft.points ≤ length points.now }
    requires faces { inspection.old.draft.faces ≤ length faces.now }
    requires some { 0 < length pairs.old }
    requires whole { length pairs.old % 4 ≡ 0 }
    ensures { InspectsFile H.does H.fails inspection.old.draft points.now faces.now
        host.old result host.new }
{
    offer_file(inspection, points, faces, lists, pairs, host)?;
    print_found(inspection, points, faces, lists, host)
}

/// Opens the inspection of a plan: it has made no step of its walk.
#[tactic(auto, using(crate::proofs::of_a_plan::FileOfPairs::made_none))]
pub(crate) fn open_plan(draft: Draft, lists: &mut Lists<'_>) -> Inspection<Delivered>
    requires vf { length (emptied lists.old).vf.rest ≡ room }
    requires ee { length (emptied lists.old).ee.rest ≡ room }
    ensures begins { Begins draft (state_of result lists.new) }
    ensures draft { result.draft ≡ draft }
{
    let Ok(inspection) = Inspection::open(draft, delivered_filter(), DEPTH, lists) else {
        unreachable!()
    };
    inspection
}

/// Prints what an inspection has found.
#[tactic(auto, unfolding(crate::specs::inspect::inner::Progress::Reportable))]
pub(crate) fn print_found<F: Filter, H: Host>(
    inspection: &Inspection<F>,
    points: &[Point],
    faces: &[Face],
    lists: &Lists<'_>,
    host: &mut H,
) -> Result<Ending, H::Error>
    requires { Reportable inspection.now.draft points.now faces.now (entries_of lists.now) }
    ensures printed { let v = view_of F.Filter.struck inspection.now points.now faces.now in
        let text = report_text v (entries_of lists.now) in
        Prints H.does H.fails text host.old result host.new }
    ensures found { IfOk result (λ ending.
        (ending ≡ Complete) × Findings (F.Filter.struck inspection.now.filter)
        (state_of inspection.now lists.now)) }
{
    let Ok(()) = print_report(inspection, points, faces, lists, host)? else {
        unreachable!()
    };
    Ok(Ending::Complete)
}
