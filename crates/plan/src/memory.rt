// A plan in memory.
ghost use Rattle.std.specs.Prelude.{◌+◌, length};

use crate::plan_files::PlanFile;
use hosts::{Files, read_front};

/// What is left to read of a plan.
#[derive(Drop)]
pub struct PlanBytes<'a, 'b, 'c> {
    pub sheet: &'a [u8],
    pub step: &'b [u8],
    pub pairs: &'c [u8],
}

impl Files for PlanBytes<'_, '_, '_> {
    ghost use Rattle.plan.specs.Memory.{left_in};
    ghost use Rattle.plan.specs.Plans.{bytes_of, same_plan_file};

    type File = PlanFile;

    ghost same = { same_plan_file };

    ghost left = { λ b. bytes_of (left_in b) };

    ghost most = { λ b. length b.sheet.now + length b.step.now + length b.pairs.now };

    fn read_on(&mut self, file: PlanFile, buf: &mut [u8]) -> usize {
        match file {
            PlanFile::Sheet => read_front(&mut self.sheet, buf),
            PlanFile::Step => read_front(&mut self.step, buf),
            PlanFile::Pairs => read_front(&mut self.pairs, buf),
        }
    }
}
