// Where a program stores, and what stands in its way.
ghost use Rattle.std.specs.Prelude.{◌≡◌, ◌++◌, codes, IfOk, string_bytes};

use crate::failures::tell;
use std::alloc::{AllocError, Global};
use std::fs::Metadata;
use std::io::ErrorKind;
use std::os::unix::fs::MetadataExt;
use std::path::{Path, PathBuf};
use std::{fs, io};

/// How many links a path leads through at most, as for the system.
const LINKS: u32 = 40;

/// What a path names in the end, through all links.
#[derive(Drop)]
pub(crate) enum Target {
    /// A plain file, whose place is taken.
    Plain(PathBuf, Metadata),
    /// Nothing yet.
    New(PathBuf),
    /// Something else, as a device, which is written itself.
    Other,
}

impl Target {
    pub(crate) fn at(rt: &HostRuntime, path: &str) -> io::Result<Target> {
        match fs::metadata(rt, path) {
            Ok(found) if found.is_file() => Ok(Target::Plain(end_of_links(rt, path)?, found)),
            Ok(_) => Ok(Target::Other),
            Err(e) if e.kind() == ErrorKind::NotFound => Ok(Target::New(end_of_links(rt, path)?)),
            Err(e) => Err(e),
        }
    }
}

/// Whether a run that reads these files may store at a path, as far as can be seen before it. What
/// stands in its way is told: that it would destroy what it reads, or that the file beside is there.
pub fn may_store(rt: &HostRuntime, path: &str, inputs: &[&str]) -> bool {
    let to = match Target::at(rt, path) {
        Ok(Target::Plain(to, found)) => {
            if inputs.iter().any(|input| is_at(rt, &found, *input)) {
                tell(
                    rt,
                    path,
                    "it is read in this run, so nothing is stored there",
                );
                return false;
            }
            to
        }
        Ok(Target::New(to)) => to,
        // why nothing can be stored there is told when it is tried
        Ok(Target::Other) | Err(_) => return true,
    };
    let Ok(part) = part_of(rt.alloc(), to.as_str()) else {
        tell(rt, "memory", "out of memory");
        return false;
    };
    let is_free = fs::symlink_metadata(rt, part.as_str()).is_err();
    if !is_free {
        tell(rt, part.as_str(), TAKEN);
    }
    is_free
}

/// What is told of a file beside a target that is there before a run.
const TAKEN: &str =
    "it is there already; where no other run is at work, it was left by one that was interrupted, and can be removed";

/// The path of the file beside a target.
pub(crate) fn part_of(alloc: Global, path: &str) -> Result<String, AllocError>
    ensures { IfOk result (λ part. string_bytes part ≡ path.now ++ codes ".part") }
{
    format!(in alloc; "{path}.part")
}

/// Whether a path names just this file.
fn is_at(rt: &HostRuntime, file: &Metadata, path: &str) -> bool {
    fs::metadata(rt, path).is_ok_and(|found| found.dev() == file.dev() && found.ino() == file.ino())
}

/// The path to which the links at a path lead, whether anything lies there or not.
fn end_of_links(rt: &HostRuntime, path: &str) -> io::Result<PathBuf> {
    let mut end = PathBuf::from_str(rt.alloc(), path)?;
    for _ in 0..LINKS {
        match fs::symlink_metadata(rt, end.as_str()) {
            Ok(found) if found.is_symlink() => {
                let next = fs::read_link(rt, end.as_str())?;
                let folder = Path::new(end.as_str()).parent();
                let folder = folder.unwrap_or(Path::new(""));
                end = folder.join(rt.alloc(), next.as_str())?;
            }
            _ => return Ok(end),
        }
    }
    Err(io::Error::other("it leads through too many links"))
}
