// Where the files of a plan lie.
ghost use Rattle.std.specs.Prelude.{◌≡◌, IfOk};
ghost use Rattle.plans.specs.PlanPaths.{file_name};

use plan::{Ending, PlanFile};
use std::alloc::{AllocError, Global};
use std::path::{Path, PathBuf};
use system::{FilePaths, Last};

/// The paths of a plan's files, and of the file that its refused pairs are stored in, if they are.
#[derive(Drop)]
pub struct Paths {
    pub sheet: PathBuf,
    pub step: PathBuf,
    pub pairs: PathBuf,
    pub refused: Option<String>,
}

impl Paths {
    ghost use Rattle.plans.specs.PlanPaths.{AreIn};

    /// The paths in a folder.
    pub fn in_folder(
        alloc: Global,
        folder: &str,
        refused: Option<String>,
    ) -> Result<Paths, AllocError>
        ensures files { IfOk result (AreIn folder.now) }
        ensures refused { IfOk result (λ p. p.refused ≡ refused) }
    {
        let folder = Path::new(folder);
        Ok(Paths {
            sheet: folder.join(alloc, name_of(PlanFile::Sheet))?,
            step: folder.join(alloc, name_of(PlanFile::Step))?,
            pairs: folder.join(alloc, name_of(PlanFile::Pairs))?,
            refused,
        })
    }
}

impl FilePaths for Paths {
    ghost use Rattle.plans.specs.PlanPaths.{plan_path, refused_path, plan_lasts};

    type File = PlanFile;

    type Answer = Ending;

    ghost path_of = { plan_path };

    ghost target_of = { refused_path };

    ghost lasts_of = { plan_lasts };

    fn path(&self, file: PlanFile) -> &str {
        match file {
            PlanFile::Sheet => self.sheet.as_str(),
            PlanFile::Step => self.step.as_str(),
            PlanFile::Pairs => self.pairs.as_str(),
        }
    }

    fn target(&self) -> Option<&str> {
        match &self.refused {
            Some(path) => Some(path.as_str()),
            None => None,
        }
    }

    fn last(&self, ending: Ending) -> Last<'_> {
        match ending {
            Ending::Complete => match self.target() {
                Some(path) => Last::FlushThenKeep(path),
                None => Last::Flush,
            },
            Ending::Faulty(_) => Last::Flush,
        }
    }
}

fn name_of(file: PlanFile) -> &'static str
    ensures { result.now ≡ file_name file }
{
    match file {
        PlanFile::Sheet => "sheet.obj",
        PlanFile::Step => "step.bin",
        PlanFile::Pairs => "pairs.bin",
    }
}
