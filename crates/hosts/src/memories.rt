// Memory as a host.
ghost use Rattle.std.specs.Prelude.{◌≡◌, ℕ, Bool, List, ◌+◌, ◌≤◌, length, take, drop};
ghost use Rattle.hosts.specs.Events.{Read, TakesBytes};

use crate::copying::copy_front;
use crate::hosts::Host;
use crate::pages::Page;
use std::convert::Infallible;

/// What is left to read of a work's files, which lie in memory.
pub trait Files {
    /// The work's names of its files.
    type File;

    // whether two names are of one file
    ghost same: { Self.File → Self.File → Bool };

    // what is left of each
    ghost left: { Self → Self.File → List ℕ };

    // how much is left of all
    ghost most: { Self → ℕ };

    /// Reads on in a file until the buffer is full or the file ends: how many bytes came.
    fn read_on(&mut self, file: Self::File, buf: &mut [u8]) -> usize
        ensures few { result ≤ length buf.old }
        ensures less { most self.new + result ≤ most self.old }
        ensures taken { let e = Read file (length buf.old) (take result buf.new) in
            TakesBytes same (left self.old) e (left self.new) };
}

/// Reads on in what is left of a file until the buffer is full or the file ends: how many bytes came.
pub fn read_front(left: &mut &[u8], buf: &mut [u8]) -> usize
    ensures few { result ≤ length buf.old }
    ensures less { length left.new.now + result ≤ length left.old.now }
    ensures came { take result buf.new ≡ take (length buf.old) left.old.now }
    ensures left { left.new.now ≡ drop (length buf.old) left.old.now }
{
    let n = copy_front(left, buf);
    *left = &left[n..];
    n
}

/// Memory as a host: the files that lie there, and a page each for what is printed and for what is
/// stored.
#[derive(Drop)]
pub struct Memory<'a, 'p, 'b, 's, T> {
    pub files: T,
    pub printed: &'a mut Page<'p>,
    pub stored: &'b mut Page<'s>,
}

impl<T: Files> Host for Memory<'_, '_, '_, '_, T> {
    ghost use Rattle.hosts.specs.Memory.{Remembers};
    ghost use Rattle.hosts.specs.Pages.{NeverFails};

    type File = T::File;

    type Error = Infallible;

    ghost does = { Remembers T.same T.left };

    ghost fails = { NeverFails };

    ghost most = { λ m. T.most m.files };

    #[tactic(auto, using(crate::proofs::Showing::shows_none))]
    fn fill(&mut self, file: T::File, buf: &mut [u8]) -> Result<usize, Infallible> {
        Ok(self.files.read_on(file, buf))
    }

    #[tactic(auto, using(crate::proofs::Showing::shows_none))]
    fn print(&mut self, bytes: &[u8]) -> Result<(), Infallible> {
        self.printed.show(bytes);
        Ok(())
    }

    #[tactic(auto, using(crate::proofs::Showing::shows_none))]
    fn store(&mut self, bytes: &[u8]) -> Result<(), Infallible> {
        self.stored.show(bytes);
        Ok(())
    }
}
