// A run from two frames.
ghost use Rattle.std.specs.Prelude.{◌≡◌, ◌≤◌, length};
ghost use Rattle.works.specs.two_frames.Accounts.{ending_by};
ghost use Rattle.works.specs.two_frames.Works.{InspectsFrames, InspectsStep, InspectsNearPairs};

use crate::inspect::inspect_rows;
use crate::two_frames::endings::FramesEnding;
use crate::two_frames::lines::last_line;
use crate::two_frames::tables::Tables;
use crate::two_frames::telling::{tell_no_step, tell_unsearched};
use frames::{FrameFile, print_step, read_frames};
use hosts::{Host, tell};
use near_faces::{Node, Pair};
use pairing::{NODE_LIMIT, PAIR_LIMIT, find_pairs, print_pairs};
use sheet::{Draft, Face, Point};

/// Inspects the step between two frames over a host: reads them, prints the line of the step, finds
/// all near pairs and offers them. Of each pair that is refused its line is printed and the pair
/// stored, as it comes; then the report is printed, and a last line. A fault, or a difference of the
/// frames, ends the run with its line.
///
/// Where no pair is refused, the claim is of the whole sheet: of every two different faces, near or
/// far, what shares no point and is not listed stays apart for the whole step. And so say the lines
/// that are printed (`settles`): after `covered all pairs` each test of every two faces has a point
/// in common, or its line, or stays apart. The lent tables are worked in; what they hold does not
/// matter.
#[tactic(auto, using(crate::proofs::of_frames::BothFrames::unread, crate::proofs::of_frames::BothFrames::no_step_told, crate::proofs::of_frames::BothFrames::step_inspected))]
pub fn inspect_frames<H: Host<File = FrameFile>>(
    tables: &mut Tables,
    near: &mut [Pair; PAIR_LIMIT],
    host: &mut H,
) -> Result<FramesEnding, H::Error>
    ensures { InspectsFrames H.does H.fails host.old result host.new }
{
    let Tables { frames, nodes } = tables;
    match read_frames(frames, host)? {
        Ok(draft) => inspect_step(draft, frames.points(), frames.faces(), nodes, near, host),
        Err(why) => tell_no_step(why, host),
    }
}

/// Inspects a step over its rows: prints its line, finds the near pairs and offers them.
#[tactic(auto, using(crate::proofs::of_frames::Steps::step_untold))]
fn inspect_step<H: Host>(
    draft: Draft,
    points: &[Point],
    faces: &[Face],
    nodes: &mut [Node; NODE_LIMIT],
    near: &mut [Pair; PAIR_LIMIT],
    host: &mut H,
) -> Result<FramesEnding, H::Error>
    requires points { draft.points ≤ length points.now }
    requires faces { draft.faces ≤ length faces.now }
    ensures { InspectsStep draft points.now faces.now H.does H.fails host.old result host.new }
{
    print_step(&draft, points, host)?;
    match find_pairs(&draft, points, faces, nodes, near) {
        Ok(pairs) => inspect_pairs(draft, points, faces, pairs, host),
        Err(fault) => tell_unsearched(fault.notice(), host),
    }
}

/// Inspects these pairs: tells how many there are, offers them, and tells how many are refused.
#[tactic(auto, using(crate::proofs::of_frames::Steps::pairs_untold))]
fn inspect_pairs<H: Host>(
    draft: Draft,
    points: &[Point],
    faces: &[Face],
    pairs: &[Pair],
    host: &mut H,
) -> Result<FramesEnding, H::Error>
    requires points { draft.points ≤ length points.now }
    requires faces { draft.faces ≤ length faces.now }
    ensures { InspectsNearPairs draft points.now faces.now H.does H.fails pairs.now host.old result host.new }
{
    print_pairs(&draft, pairs, host)?;
    let refused = inspect_rows(draft, points, faces, pairs, host)?;
    tell(last_line(refused).as_str(), ending_by(refused), host)
}

/// How a run ends that has refused so many pairs.
fn ending_by(refused: usize) -> FramesEnding
    ensures { result ≡ ending_by refused }
{
    if refused == 0 {
        return FramesEnding::Covered;
    }
    FramesEnding::Refused(refused)
}
