// Where a plan's files lie, and where its pairs are stored.
ghost use Rattle.std.specs.Prelude.{IfOk};

use plan::{Ending, PlanFile};
use plans::Paths as PlanPaths;
use std::alloc::{AllocError, Global};
use system::{FilePaths, Last};

/// The paths of a plan's files, of which the pairs are stored.
#[derive(Drop)]
pub struct Paths {
    pub plan: PlanPaths,
}

impl Paths {
    ghost use Rattle.plans.specs.PlanPaths.{AreIn};

    /// The paths in a folder.
    pub fn in_folder(alloc: Global, folder: &str) -> Result<Paths, AllocError>
        ensures { IfOk result (λ p. AreIn folder.now p.plan) }
    {
        let plan = PlanPaths::in_folder(alloc, folder, None)?;
        Ok(Paths { plan })
    }
}

impl FilePaths for Paths {
    ghost use Rattle.pairings.specs.PairPaths.{pair_path, pairs_path, pair_lasts};

    type File = PlanFile;

    type Answer = Ending;

    ghost path_of = { pair_path };

    ghost target_of = { pairs_path };

    ghost lasts_of = { pair_lasts };

    fn path(&self, file: PlanFile) -> &str {
        self.plan.path(file)
    }

    fn target(&self) -> Option<&str> {
        Some(self.plan.pairs.as_str())
    }

    fn last(&self, ending: Ending) -> Last<'_> {
        match ending {
            Ending::Complete => Last::KeepThenFlush(self.plan.pairs.as_str()),
            Ending::Faulty(_) => Last::Flush,
        }
    }
}
