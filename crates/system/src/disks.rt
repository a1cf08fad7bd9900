// What a program's work is done on.
ghost use Rattle.std.specs.Prelude.{ℕ, ◌+◌, ◌≤◌, length, take, IfOk, IfErr, MatchResult};
ghost use Rattle.hosts.specs.Traces.{CutOff};
ghost use Rattle.system.specs.Deeds.{Deed, ReadAt, PrintedOut, Flushed, StoredAt, Kept, Task, ReadingAt, PrintingOut, Flushing, StoringAt, Keeping};

/// A disk, whose files are named by their paths, and a terminal. The work has names of its own for
/// the files that it reads, so that it can read one path twice over.
pub trait Disk<F> {
    /// Why a call fails.
    type Error: Drop;

    // one call that goes well, from the one state to the other
    ghost does: { Self → Deed F → Self → Type 0 };

    // a call that fails
    ghost fails: { Self → Task F → Self.Error → Self → Type 0 };

    // no more bytes than this can be read
    ghost most: { Self → ℕ };

    /// Reads on in a file until the buffer is full or the file ends: how many bytes came.
    fn fill(&mut self, file: F, path: &str, buf: &mut [u8]) -> Result<usize, Self::Error>
        ensures few { IfOk result (λ n. n ≤ length buf.old) }
        ensures less { IfOk result (λ n. most self.new + n ≤ most self.old) }
        ensures read { IfOk result (λ n.
            does self.old (ReadAt file path.now (length buf.old) (take n buf.new)) self.new) }
        ensures failed { IfErr result (λ e. fails self.old (ReadingAt file path.now) e self.new) };

    /// Prints all of these bytes, or a front of them and then fails. They may be held back.
    fn print(&mut self, bytes: &[u8]) -> Result<(), Self::Error>
        ensures less { most self.new ≤ most self.old }
        ensures printed { MatchResult result
            (λ _. does self.old (PrintedOut bytes.now) self.new)
            (λ e. CutOff does fails self.old PrintedOut PrintingOut bytes.now e self.new) };

    /// Lets out what is held back of the printed bytes.
    fn flush(&mut self) -> Result<(), Self::Error>
        ensures less { most self.new ≤ most self.old }
        ensures flushed { MatchResult result
            (λ _. does self.old Flushed self.new) (λ e. fails self.old Flushing e self.new) };

    /// Stores all of these bytes beside the file at a path, or a front of them and then fails.
    fn store(&mut self, path: &str, bytes: &[u8]) -> Result<(), Self::Error>
        ensures less { most self.new ≤ most self.old }
        ensures stored { MatchResult result
            (λ _. does self.old (StoredAt path.now bytes.now) self.new)
            (λ e. CutOff does fails self.old (StoredAt path.now) (StoringAt path.now) bytes.now e
            self.new) };

    /// Puts what was stored in the place of the file at a path; an empty file if nothing was.
    fn keep(&mut self, path: &str) -> Result<(), Self::Error>
        ensures less { most self.new ≤ most self.old }
        ensures kept { MatchResult result
            (λ _. does self.old (Kept path.now) self.new)
            (λ e. fails self.old (Keeping path.now) e self.new) };
}
