// A host in memory that notes its calls, and of which one fails.
ghost use Rattle.std.specs.Prelude.{◌+◌, length};

use hosts::{Host, Page, copy_front};
use plan::PlanFile;
use std::convert::Infallible;

/// It is the call that is to fail.
#[derive(Clone, Copy, Debug, PartialEq, Eq)]
pub struct Failed;

/// The calls, each by a letter: S, M and P for the sheet, its motion and the pairs, that are read; p
/// for what is printed and s for what is stored.
#[derive(Drop)]
pub struct Log<'c> {
    pub letters: Page<'c>,
    /// How many calls go well before one fails.
    pub well: usize,
}

impl Log<'_> {
    fn note(&mut self, letter: u8) -> Result<(), Failed> {
        if self.well == 0 {
            return Err(Failed);
        }
        self.well -= 1;
        written(self.letters.print(&[letter]))
    }
}

/// What is left to read, and a page each for what is printed and for what is stored.
#[derive(Drop)]
pub struct TestHost<'a, 'p, 's, 'c> {
    pub sheet: &'a [u8],
    pub step: &'a [u8],
    pub pairs: &'a [u8],
    pub page: Page<'p>,
    pub stored: Page<'s>,
    pub log: Log<'c>,
}

/// A page takes all.
fn written(printed: Result<(), Infallible>) -> Result<(), Failed> {
    match printed {
        Ok(()) => Ok(()),
        Err(never) => match never {},
    }
}

impl Host for TestHost<'_, '_, '_, '_> {
    type File = PlanFile;

    type Error = Failed;

    // the tests look at what is kept, so nothing is said of the calls
    ghost does = { λ h e i. Unit {0} };

    ghost fails = { λ h call e i. Unit {0} };

    ghost most = { λ h. length h.sheet.now + length h.step.now + length h.pairs.now };

    fn fill(&mut self, file: PlanFile, buf: &mut [u8]) -> Result<usize, Failed> {
        match file {
            PlanFile::Sheet => {
                self.log.note(b'S')?;
                let n = copy_front(self.sheet, buf);
                self.sheet = &self.sheet[n..];
                Ok(n)
            }
            PlanFile::Step => {
                self.log.note(b'M')?;
                let n = copy_front(self.step, buf);
                self.step = &self.step[n..];
                Ok(n)
            }
            PlanFile::Pairs => {
                self.log.note(b'P')?;
                let n = copy_front(self.pairs, buf);
                self.pairs = &self.pairs[n..];
                Ok(n)
            }
        }
    }

    fn print(&mut self, bytes: &[u8]) -> Result<(), Failed> {
        self.log.note(b'p')?;
        written(self.page.print(bytes))
    }

    fn store(&mut self, bytes: &[u8]) -> Result<(), Failed> {
        self.log.note(b's')?;
        written(self.stored.print(bytes))
    }
}
