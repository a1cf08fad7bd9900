// A host in memory that notes its calls, and of which one fails.
ghost use Rattle.std.specs.Prelude.{◌+◌, length};

use frames::FrameFile;
use hosts::Host;
use std::alloc::Global;

/// Why a call fails.
#[derive(Debug, Drop, PartialEq, Eq)]
pub enum Failure {
    /// It is the one that is to fail.
    Meant,
    Memory,
}

/// What the calls were, each by a letter: S and E for a frame that is read, s for what is stored
/// and p for what is printed.
#[derive(Drop)]
pub struct Log {
    pub letters: Vec<u8>,
    fails_at: usize,
}

#[derive(Drop)]
pub struct TestHost<'a> {
    start: &'a [u8],
    end: &'a [u8],
    pub log: Log,
    pub stored: Vec<u8>,
    pub printed: Vec<u8>,
}

impl Log {
    fn note(&mut self, letter: u8) -> Result<(), Failure> {
        if self.letters.len() == self.fails_at {
            return Err(Failure::Meant);
        }
        keep(&mut self.letters, &[letter])
    }
}

fn keep(all: &mut Vec<u8>, bytes: &[u8]) -> Result<(), Failure> {
    match all.extend_from_slice(bytes) {
        Ok(()) => Ok(()),
        Err(_) => Err(Failure::Memory),
    }
}

impl<'a> TestHost<'a> {
    /// Two texts, and how many calls go well before one fails.
    pub fn new(alloc: Global, start: &'a [u8], end: &'a [u8], fails_at: usize) -> TestHost<'a> {
        TestHost {
            start,
            end,
            log: Log {
                letters: Vec::new(alloc),
                fails_at,
            },
            stored: Vec::new(alloc),
            printed: Vec::new(alloc),
        }
    }
}

impl Host for TestHost<'_> {
    type File = FrameFile;

    type Error = Failure;

    // the tests look at what is kept, so nothing is said of the calls
    ghost does = { λ h e i. Unit {0} };

    ghost fails = { λ h call e i. Unit {0} };

    ghost most = { λ h. length h.start.now + length h.end.now };

    fn fill(&mut self, file: FrameFile, buf: &mut [u8]) -> Result<usize, Failure> {
        match file {
            FrameFile::Start => {
                self.log.note(b'S')?;
                let all = self.start;
                let n = all.len().min(buf.len());
                buf[..n].copy_from_slice(&all[..n]);
                self.start = &all[n..];
                Ok(n)
            }
            FrameFile::End => {
                self.log.note(b'E')?;
                let all = self.end;
                let n = all.len().min(buf.len());
                buf[..n].copy_from_slice(&all[..n]);
                self.end = &all[n..];
                Ok(n)
            }
        }
    }

    fn print(&mut self, bytes: &[u8]) -> Result<(), Failure> {
        self.log.note(b'p')?;
        keep(&mut self.printed, bytes)
    }

    fn store(&mut self, bytes: &[u8]) -> Result<(), Failure> {
        self.log.note(b's')?;
        keep(&mut self.stored, bytes)
    }
}
