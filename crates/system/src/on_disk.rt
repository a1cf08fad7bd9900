// A disk as the host of a work whose files are placed on it.
ghost use Rattle.std.specs.Prelude.{◌≡◌, ℕ, List, Some, None, Option, MatchOption};
ghost use Rattle.system.specs.Deeds.{Deed};
ghost use Rattle.system.specs.Lasts.{deeds_of};
ghost use Rattle.system.specs.Failures.{site_name};

use crate::disks::Disk;
use crate::failures::Site;
use crate::lasts::{Last, finish};
use hosts::Host;

/// Where the files of a work lie.
pub trait FilePaths {
    /// The work's names of the files that it reads.
    type File;

    /// What the work answers.
    type Answer: Copy;

    ghost path_of: { Self → Self.File → List ℕ };

    ghost target_of: { Self → Option (List ℕ) };

    ghost lasts_of: { Self → Self.Answer → List (Deed Self.File) };

    /// The path of a file.
    fn path(&self, file: Self::File) -> &str
        ensures { result.now ≡ path_of self.now file };

    /// The path of the file that the work stores, if it does.
    fn target(&self) -> Option<&str>
        ensures { MatchOption result (target_of self.now ≡ None)
            (λ path. target_of self.now ≡ Some path.now) };

    /// The last that is done after a work that answers so.
    fn last(&self, answer: Self::Answer) -> Last<'_>
        ensures { deeds_of result ≡ lasts_of self.now answer };
}

/// By which name a failure is told.
pub fn site_name<P: FilePaths>(paths: &P, site: Site<P::File>) -> &str
    ensures { result.now ≡ site_name P.path_of P.target_of paths.now site }
{
    match site {
        Site::File(file) => paths.path(file),
        Site::Output => "standard output",
        Site::Target => paths.target().unwrap_or(""),
        Site::Memory => "memory",
    }
}

/// A disk, and where a work's files lie on it.
#[derive(Drop)]
pub struct OnDisk<D, P> {
    pub disk: D,
    pub paths: P,
    /// How many bytes the work has stored, also where there is no target for them.
    pub stored: u64,
}

impl<D: Disk<P::File>, P: FilePaths> Host for OnDisk<D, P>
where
    P::File: Copy,
{
    ghost use Rattle.system.specs.OnDisk.{DoesOnDisk, FailsOnDisk};

    type File = P::File;

    type Error = D::Error;

    ghost does = { DoesOnDisk P.path_of P.target_of D.does };

    ghost fails = { FailsOnDisk P.path_of P.target_of D.fails };

    ghost most = { λ s. D.most s.disk };

    fn fill(&mut self, file: P::File, buf: &mut [u8]) -> Result<usize, D::Error> {
        self.disk.fill(file, self.paths.path(file), buf)
    }

    #[tactic(auto, using(crate::proofs::Calls::print_on_disk))]
    fn print(&mut self, bytes: &[u8]) -> Result<(), D::Error> {
        self.disk.print(bytes)
    }

    fn store(&mut self, bytes: &[u8]) -> Result<(), D::Error> {
        self.stored = self.stored.saturating_add(bytes.len() as u64);
        match self.paths.target() {
            Some(path) => self.disk.store(path, bytes),
            None => Ok(()),
        }
    }
}

impl<D: Disk<P::File>, P: FilePaths> OnDisk<D, P> {
    ghost use Rattle.system.specs.OnDisk.{Ends};

    /// Nothing is stored yet.
    pub fn new(disk: D, paths: P) -> OnDisk<D, P>
        ensures { result ≡ record { disk = disk; paths = paths; stored = 0 } }
    {
        OnDisk {
            disk,
            paths,
            stored: 0,
        }
    }

    /// Ends a run: does the last after a work that went well; after one that failed lets out what was
    /// printed, if that can be done, and answers its error.
    pub fn end(&mut self, work: Result<P::Answer, D::Error>) -> Result<P::Answer, D::Error>
        ensures { Ends D.does D.fails P.lasts_of self.old work result self.new }
    {
        match work {
            Ok(answer) => {
                finish(&mut self.disk, self.paths.last(answer))?;
                Ok(answer)
            }
            Err(e) => {
                let _ = self.disk.flush();
                Err(e)
            }
        }
    }
}
