// The disk and the terminal of the system. Of what its calls do nothing stands in a contract: it is what
// all others rest on.
ghost use Rattle.std.specs.Prelude.{◌≡◌, ◌+◌, ◌-◌, ◌^◌, ◌≤◌, IfOk, length};

use crate::beside::Beside;
use crate::disks::Disk;
use crate::failures::{Failure, Site, at};
use crate::printing::Held;
use crate::progress::{Progress, Watched};
use crate::reading::fill_from;
use std::fs::File;
use std::io;
use std::io::Print;

/// The disk and the terminal of the system.
#[derive(Drop)]
pub struct Machine<F> {
    rt: HostRuntime,
    reading: Option<Opened<F>>,
    /// How many of its bytes have come.
    came: u64,
    /// How many bytes may still be read.
    left: u64,
    held: Held,
    storing: Option<Beside>,
    progress: Progress,
    watched: Option<Watched<F>>,
}

/// The file that was read last.
#[derive(Drop)]
struct Opened<F> {
    file: F,
    reader: File,
}

impl<F: Copy + PartialEq> Machine<F> {
    ghost use Rattle.system.specs.Machines.{left_to_read};

    /// A machine that tells on a terminal how far it is in a file. Nothing is opened where there is
    /// no standard output, so that no file takes its place.
    pub fn new(rt: HostRuntime, watched: Option<Watched<F>>) -> Result<Machine<F>, Failure<F>>
        ensures { IfOk result (λ machine. left_to_read machine ≡ 2 ^ 64 - 1) }
    {
        at(Site::Output, rt.write_some(b""))?;
        let held = at(Site::Memory, Held::new(rt.alloc()).map_err(io::Error::from))?;
        Ok(Machine {
            rt,
            reading: None,
            came: 0,
            left: u64::MAX,
            held,
            storing: None,
            progress: Progress::new(rt),
            watched,
        })
    }

    /// Opens a file, unless it is the one that was read last.
    fn open(&mut self, file: F, path: &str) -> io::Result<()>
        ensures { self.new.left ≡ self.old.left }
    {
        if let Some(opened) = &self.reading
            && opened.file == file
        {
            return Ok(());
        }
        self.reading = None;
        self.reading = Some(Opened {
            file,
            reader: File::open(&self.rt, path)?,
        });
        self.came = 0;
        Ok(())
    }

    fn tell(&mut self, file: F)
        ensures { self.new.left ≡ self.old.left }
    {
        if let Some(watched) = &self.watched
            && watched.file == file
        {
            let done = self.came.checked_div(watched.size).unwrap_or(0);
            self.progress.tell(done, watched.things);
        }
    }
}

impl<F: Copy + PartialEq> Machine<F> {
    fn read_on(&mut self, file: F, path: &str, buf: &mut [u8]) -> io::Result<usize>
        ensures few { IfOk result (λ n. n ≤ length buf.old) }
        ensures less { IfOk result (λ n. self.new.left + n ≤ self.old.left) }
    {
        self.open(file, path)?;
        self.tell(file);
        let n = match &mut self.reading {
            Some(opened) => fill_from(&mut opened.reader, buf)?,
            None => 0,
        };
        self.came = self.came.saturating_add(n as u64);
        match self.left.checked_sub(n as u64) {
            Some(left) => {
                self.left = left;
                Ok(n)
            }
            None => Err(io::Error::other("it does not end")),
        }
    }

    fn store_beside(&mut self, path: &str, bytes: &[u8]) -> io::Result<()>
        ensures { self.new.left ≡ self.old.left }
    {
        self.open_beside(path)?;
        match &mut self.storing {
            Some(beside) => beside.write(bytes),
            None => Ok(()),
        }
    }

    fn open_beside(&mut self, path: &str) -> io::Result<()>
        ensures { self.new.left ≡ self.old.left }
    {
        if self.storing.is_none() {
            self.storing = Some(Beside::open(self.rt, path)?);
        }
        Ok(())
    }

    fn keep_beside(&mut self, path: &str) -> io::Result<()>
        ensures { self.new.left ≡ self.old.left }
    {
        self.open_beside(path)?;
        match &mut self.storing {
            Some(beside) => beside.keep(),
            None => Ok(()),
        }
    }
}

impl<F: Copy + PartialEq> Disk<F> for Machine<F> {
    ghost use Rattle.system.specs.Machines.{left_to_read};

    type Error = Failure<F>;

    ghost does = { λ s deed t. Unit {0} };

    ghost fails = { λ s task e t. Unit {0} };

    ghost most = { left_to_read };

    fn fill(&mut self, file: F, path: &str, buf: &mut [u8]) -> Result<usize, Failure<F>> {
        let done = self.read_on(file, path, buf);
        at(Site::File(file), done)
    }

    fn print(&mut self, bytes: &[u8]) -> Result<(), Failure<F>> {
        if self.held.hold(bytes) {
            return Ok(());
        }
        self.progress.wipe();
        let done = self.held.print(&mut io::writer(&self.rt), bytes);
        at(Site::Output, done)
    }

    fn flush(&mut self) -> Result<(), Failure<F>> {
        self.progress.wipe();
        let done = self.held.flush(&mut io::writer(&self.rt));
        at(Site::Output, done)
    }

    fn store(&mut self, path: &str, bytes: &[u8]) -> Result<(), Failure<F>> {
        at(Site::Target, self.store_beside(path, bytes))
    }

    fn keep(&mut self, path: &str) -> Result<(), Failure<F>> {
        at(Site::Target, self.keep_beside(path))
    }
}
