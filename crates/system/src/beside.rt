// A file that is written beside the one whose place it is to take.
use crate::printing::Held;
use crate::targets::{Target, part_of};
use std::fs::File;
use std::io::ErrorKind;
use std::path::PathBuf;
use std::{fs, io};

/// A file that is written, and removed again unless it is kept.
pub(crate) struct Beside {
    rt: HostRuntime,
    file: File,
    held: Held,
    /// Where it lies and where it is to lie; none where the target is no plain file, as a device.
    renaming: Option<Renaming>,
}

#[derive(Drop)]
struct Renaming {
    from: String,
    to: PathBuf,
}

impl Beside {
    /// Opens a file beside the one at a path, with the mode of that one if it is there. What is no
    /// plain file is written itself.
    pub(crate) fn open(rt: HostRuntime, path: &str) -> io::Result<Beside> {
        let held = Held::new(rt.alloc())?;
        match Target::at(&rt, path)? {
            Target::Plain(to, found) => {
                let beside = Beside::create(rt, to, held)?;
                beside.file.set_permissions(found.permissions())?;
                Ok(beside)
            }
            Target::New(to) => Beside::create(rt, to, held),
            Target::Other => {
                let file = File::options().write(true).open(&rt, path)?;
                Ok(Beside {
                    rt,
                    file,
                    held,
                    renaming: None,
                })
            }
        }
    }

    fn create(rt: HostRuntime, to: PathBuf, held: Held) -> io::Result<Beside> {
        let from = part_of(rt.alloc(), to.as_str())?;
        match File::create_new(&rt, from.as_str()) {
            Ok(file) => Ok(Beside {
                rt,
                file,
                held,
                renaming: Some(Renaming { from, to }),
            }),
            Err(e) if e.kind() == ErrorKind::AlreadyExists => {
                let reason = "the name with .part after it is taken";
                Err(io::Error::new(ErrorKind::AlreadyExists, reason))
            }
            Err(e) => Err(e),
        }
    }

    pub(crate) fn write(&mut self, bytes: &[u8]) -> io::Result<()> {
        self.held.print(&mut self.file, bytes)
    }

    /// Puts it in the place of the target.
    pub(crate) fn keep(&mut self) -> io::Result<()> {
        self.held.flush(&mut self.file)?;
        if let Some(Renaming { from, to }) = &self.renaming {
            self.file.sync_all()?;
            fs::rename(&self.rt, from.as_str(), to.as_str())?;
        }
        self.renaming = None;
        Ok(())
    }
}

impl Drop for Beside {
    fn drop(self) {
        let Beside {
            rt,
            file: _,
            held: _,
            renaming,
        } = self;
        if let Some(Renaming { from, to: _ }) = renaming {
            let _ = fs::remove_file(&rt, from.as_str());
        }
    }
}
