// A whole run over a folder.
ghost use Rattle.pairings.specs.Runs.{PairsFolder};

use crate::paths::Paths;
use near_faces::Pair;
use pairing::{PAIR_BYTES, PAIR_LIMIT, Tables, pair_plan};
use plan::{Ending, PlanFile};
use system::{Disk, OnDisk};

/// Finds the pairs of the plan whose files are placed on a disk. Pairs that were stored are kept
/// before the line that tells their number goes out.
#[tactic(auto, using(crate::proofs::OnDisk::ended))]
pub fn pair_on_disk<D: Disk<PlanFile>>(
    tables: &mut Tables,
    near: &mut [Pair; PAIR_LIMIT],
    bytes: &mut [u8; PAIR_BYTES],
    plan: &mut OnDisk<D, Paths>,
) -> Result<Ending, D::Error>
    ensures { PairsFolder D.does D.fails plan.old result plan.new }
{
    let work = pair_plan(tables, near, bytes, plan);
    plan.end(work)
}
