// Printing through a buffer.
ghost use Rattle.std.specs.Prelude.{◌≡◌, ◌++◌, [], if◌then◌else◌, OnOk};
ghost use Rattle.std.specs.Io.KnownBytes.{Appends, append_known};

use std::alloc::{AllocError, Global};
use std::io;
use std::io::Write;

/// How many bytes are held back at most.
const ROOM: usize = 65536;

/// Printed bytes that are held back.
#[derive(Drop)]
pub(crate) struct Held {
    bytes: Vec<u8>,
}

impl Held {
    pub(crate) fn new(alloc: Global) -> Result<Held, AllocError> {
        Ok(Held {
            bytes: Vec::with_capacity(alloc, ROOM)?,
        })
    }

    /// Holds these bytes back too, if there is room: whether it does.
    pub(crate) fn hold(&mut self, bytes: &[u8]) -> bool
        ensures { self.new.bytes.items
            ≡ (if result then self.old.bytes.items ++ bytes.now else self.old.bytes.items) }
    {
        let room = ROOM.saturating_sub(self.bytes.len());
        bytes.len() <= room && self.bytes.extend_from_slice(bytes).is_ok()
    }

    /// Holds these bytes back too, or lets all out where there is no room.
    pub(crate) fn print<W: Write>(&mut self, out: &mut W, bytes: &[u8]) -> io::Result<()>
        ensures { OnOk result
            (Appends (append_known (W.contents out.old) self.old.bytes.items)
            (append_known (W.contents out.new) self.new.bytes.items) bytes.now) }
    {
        if self.hold(bytes) {
            return Ok(());
        }
        self.flush(out)?;
        if self.hold(bytes) {
            return Ok(());
        }
        out.write_all(bytes)
    }

    /// Lets all out.
    pub(crate) fn flush<W: Write>(&mut self, out: &mut W) -> io::Result<()>
        ensures out { OnOk result
            (Appends (W.contents out.old) (W.contents out.new) self.old.bytes.items) }
        ensures none { self.new.bytes.items ≡ [] }
    {
        let written = out.write_all(self.bytes.as_slice());
        self.bytes.clear();
        written
    }
}
