// Offering the pairs of a table.
ghost use Rattle.std.specs.Prelude.{◌≡◌, ◌≤◌, length, map};
ghost use Rattle.inspection.specs.States.{state_of};
ghost use Rattle.works.specs.inspect.inner.Progress.{Begins, Offers};
ghost use Rattle.near_faces.specs.Near.{offering_of};
ghost use Rattle.works.specs.inspect.Rows.{InspectsRows};

use crate::inspect::offering::offer_pair;
use crate::inspect::pairs::{ROOM, lists_over, open_plan, print_found};
use filters::{Delivered, Filter};
use hosts::Host;
use inspection::{Inspection, Lists, Marked, Offering};
use near_faces::Pair;
use sheet::{Draft, Face, Point};

/// Inspects these pairs over the rows of a sheet: of each that is refused its line is printed and the
/// pair stored, as it comes, and then what is found is printed. Answers how many are refused.
pub(crate) fn inspect_rows<H: Host>(
    draft: Draft,
    points: &[Point],
    faces: &[Face],
    pairs: &[Pair],
    host: &mut H,
) -> Result<usize, H::Error>
    requires points { draft.points ≤ length points.now }
    requires faces { draft.faces ≤ length faces.now }
    ensures { InspectsRows H.does H.fails draft points.now faces.now (map offering_of pairs.now)
        host.old result host.new }
{
    let mut vf_table = [Marked::default(); ROOM];
    let mut ee_table = [Marked::default(); ROOM];
    let mut lists = lists_over(&mut vf_table, &mut ee_table);
    let mut inspection = open_plan(draft, &mut lists);
    offer_and_count(&mut inspection, points, faces, &mut lists, pairs, host)
}

/// Offers these pairs to an inspection that is just opened, prints what it has found then, and answers
/// how many it has refused.
#[tactic(auto, using(crate::proofs::of_a_plan::TableOfPairs::offered_in_part, crate::proofs::of_a_plan::TableOfPairs::reportable, crate::proofs::of_a_plan::TableOfPairs::few_accepted, crate::proofs::of_a_plan::TableOfPairs::reported))]
fn offer_and_count<H: Host>(
    inspection: &mut Inspection<Delivered>,
    points: &[Point],
    faces: &[Face],
    lists: &mut Lists<'_>,
    pairs: &[Pair],
    host: &mut H,
) -> Result<usize, H::Error>
    requires begins { Begins inspection.old.draft (state_of inspection.old lists.old) }
    requires points { inspection.old.draft.points ≤ length points.now }
    requires faces { inspection.old.draft.faces ≤ length faces.now }
    ensures { InspectsRows H.does H.fails inspection.old.draft points.now faces.now
        (map offering_of pairs.now) host.old result host.new }
{
    offer_each(inspection, points, faces, lists, pairs, host)?;
    print_found(inspection, points, faces, lists, host)?;
    Ok(pairs.len() - inspection.accepted() as usize)
}

/// Offers these pairs, in their order; of each that is refused its line is printed and the pair stored.
#[tactic(auto, using(crate::proofs::of_a_plan::Offers::none_offered))]
fn offer_each<F: Filter, H: Host>(
    inspection: &mut Inspection<F>,
    points: &[Point],
    faces: &[Face],
    lists: &mut Lists<'_>,
    pairs: &[Pair],
    host: &mut H,
) -> Result<(), H::Error>
    ensures offers { Offers H.does H.fails (F.Filter.struck inspection.old.filter)
        points.now faces.now (map offering_of pairs.now)
        (state_of inspection.old lists.old) (state_of inspection.new lists.new)
        host.old result host.new }
    ensures filter { inspection.new.filter ≡ inspection.old.filter }
{
    for pair in pairs {
        offer_pair(inspection, points, faces, lists, pair.offering(), host)?;
    }
    Ok(())
}
