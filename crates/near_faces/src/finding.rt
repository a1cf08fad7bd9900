// The search for near faces.
ghost use Rattle.std.specs.Prelude.{◌≡◌, ◌≤◌, length, is_ok, if◌then◌else◌, IfOk};
ghost use Rattle.sheet.specs.Checks.{first_fit, fault_notice};
ghost use Rattle.sheet.specs.Sheet.{onto_front};
ghost use Rattle.inspection.specs.Sheets.{sheet_in, sheet_of};
ghost use Rattle.near_faces.specs.Boxes.{swept_boxes};
ghost use Rattle.near_faces.specs.Near.{near, near_pairs, NearPairs};
ghost use Rattle.near_faces.specs.Searches.{notice_of_search, search_checks, outside_checks, table_checks, NodesAfter};
ghost use Rattle.near_faces.specs.Covering.{CoversSheet};

use crate::boxes::SweptBox;
use crate::faults::SearchFault;
use crate::nodes::{Node, build};
use crate::pairs::{Pair, list_all};
use crate::sides::Sides;
use sheet::{Draft, FACE_LIMIT, Face, Point};

/// Finds all pairs of different faces whose swept boxes overlap or touch on all three axes: writes
/// them, the lower number first and in ascending order, into the front of `pairs`, and answers
/// their number. `points` and `faces` are the sheet's tables, and may have more rows than it.
///
/// Into the first 2·faces − 1 places of `nodes` goes the tree over the boxes, also where there are
/// too many pairs. Any other fault leaves `nodes` as it was, and every fault `pairs`. The faults,
/// of which the first that fits is answered: a table has fewer rows than the sheet (16); a face
/// names a point that there is not, the lowest such face (19); there are under 2·faces − 1 nodes,
/// unless the sheet is empty (24); there are more pairs than places (25).
///
/// Offered all to an inspection, or to several, these pairs cover the whole sheet: of every two
/// faces, near or far, what shares no point and is on no list stays apart.
pub fn find_near(
    draft: &Draft,
    points: &[Point],
    faces: &[Face],
    nodes: &mut [Node],
    pairs: &mut [Pair],
) -> Result<usize, SearchFault>
    ensures fault { fault_notice notice_of_search result
        ≡ first_fit (search_checks draft.now points.now faces.now (length nodes.old) (length pairs.old)) }
    ensures count { let boxes = swept_boxes (sheet_in draft.now points.now faces.now) in
        IfOk result (λ n. n ≡ length (near boxes)) }
    ensures pairs { let boxes = swept_boxes (sheet_in draft.now points.now faces.now) in
        pairs.new ≡ (if is_ok result then onto_front (near boxes) pairs.old else pairs.old) }
    ensures nodes { let boxes = swept_boxes (sheet_in draft.now points.now faces.now) in
        NodesAfter boxes result nodes.old nodes.new }
    ensures near { let boxes = swept_boxes (sheet_in draft.now points.now faces.now) in
        NearPairs boxes (near boxes) }
    ensures covers { let s = sheet_in draft.now points.now faces.now in
        CoversSheet draft.now s (near_pairs s) }
{
    let (m, n) = (draft.points() as usize, draft.faces() as usize);
    if points.len() < m || faces.len() < n {
        return Err(SearchFault::TableTooShort);
    }
    let (points, faces) = (&points[..m], &faces[..n]);
    let mut table = [SweptBox::default(); FACE_LIMIT as usize];
    let boxes = &mut table[..n];
    sweep(points, faces, boxes)?;
    search(boxes, nodes, pairs)
}

/// Writes what each face takes up over the whole step, unless a face names a point that there is
/// not.
fn sweep(points: &[Point], faces: &[Face], boxes: &mut [SweptBox]) -> Result<(), SearchFault>
    requires few { length faces.now ≤ 4096 }
    requires room { length boxes.old ≡ length faces.now }
    ensures fault { fault_notice notice_of_search result
        ≡ first_fit (outside_checks (sheet_of points.now faces.now)) }
    ensures boxes { IfOk result (λ _. boxes.new ≡ swept_boxes (sheet_of points.now faces.now)) }
{
    for i in 0..faces.len() {
        let Some(swept) = SweptBox::of_face(points, faces[i]) else {
            return Err(SearchFault::NoSuchPoint(i as u16));
        };
        boxes[i] = swept;
    }
    Ok(())
}

/// Finds the pairs of boxes that meet.
#[tactic(auto, using(crate::proofs::Listing::put_fits))]
fn search(boxes: &[SweptBox], nodes: &mut [Node], pairs: &mut [Pair]) -> Result<usize, SearchFault>
    requires { length boxes.now ≤ 4096 }
    ensures fault { fault_notice notice_of_search result
        ≡ first_fit (table_checks boxes.now (length nodes.old) (length pairs.old)) }
    ensures count { IfOk result (λ n. n ≡ length (near boxes.now)) }
    ensures pairs { pairs.new
        ≡ (if is_ok result then onto_front (near boxes.now) pairs.old else pairs.old) }
    ensures nodes { NodesAfter boxes.now result nodes.old nodes.new }
{
    if boxes.is_empty() {
        return Ok(0);
    }
    let places = 2 * boxes.len() - 1;
    if nodes.len() < places {
        return Err(SearchFault::TooFewNodes);
    }
    build(boxes, 0, &mut nodes[..places]);
    let tree = &nodes[..places];
    let sides = Sides::of(boxes);
    let count = list_all(tree, &sides, boxes.len(), &mut []);
    if count > pairs.len() {
        return Err(SearchFault::TooManyPairs);
    }
    Ok(list_all(tree, &sides, boxes.len(), pairs))
}
