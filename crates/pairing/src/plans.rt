// The pairs of a plan.
ghost use Rattle.pairing.specs.Works.{FindsPairs};

use crate::finding::pair_sheet;
use crate::tables::{PAIR_BYTES, PAIR_LIMIT, Tables};
use hosts::Host;
use near_faces::Pair;
use plan::{Ending, PlanFile, read_plan, tell_fault};

/// Finds the pairs of faces to inspect in a plan: reads its sheet and its step, stores the bytes of
/// all near pairs, and prints the line that tells how many there are. Where there is a fault, it prints
/// the fault's line and stores nothing. The lent tables are worked in; what they hold does not matter.
#[tactic(auto, using(crate::proofs::Runs::unread, crate::proofs::Runs::faulty, crate::proofs::Runs::searched))]
pub fn pair_plan<H: Host<File = PlanFile>>(
    tables: &mut Tables,
    near: &mut [Pair; PAIR_LIMIT],
    bytes: &mut [u8; PAIR_BYTES],
    host: &mut H,
) -> Result<Ending, H::Error>
    ensures { FindsPairs H.does H.fails host.old result host.new }
{
    let Tables { plan, nodes } = tables;
    match read_plan(plan, host)? {
        Ok(draft) => pair_sheet(&draft, &plan.points, &plan.faces, nodes, near, bytes, host),
        Err(notice) => tell_fault(notice, host),
    }
}
