// What a program's work is done over.
ghost use Rattle.std.specs.Prelude.{ℕ, ◌+◌, ◌≤◌, length, take, IfOk, IfErr, MatchResult};
ghost use Rattle.hosts.specs.Events.{Event, Read, Printed, Stored, Call, Reading, Printing, Storing};
ghost use Rattle.hosts.specs.Traces.{CutOff};

/// What a program's work is done over: files that are read, an output that is printed to and one
/// that is stored in. It is all that a work can reach, so all that it does is a list of these calls, and only
/// they can stop it.
pub trait Host {
    /// The files that can be read.
    type File;

    /// Why a call fails.
    type Error;

    // one call that goes well, from the one state to the other
    ghost does: { Self → Event Self.File → Self → Type 0 };

    // a call that fails
    ghost fails: { Self → Call Self.File → Self.Error → Self → Type 0 };

    // no more bytes than this can be read
    ghost most: { Self → ℕ };

    /// Reads on in a file until the buffer is full or the file ends: how many bytes came.
    fn fill(&mut self, file: Self::File, buf: &mut [u8]) -> Result<usize, Self::Error>
        ensures few { IfOk result (λ n. n ≤ length buf.old) }
        ensures less { IfOk result (λ n. most self.new + n ≤ most self.old) }
        ensures read { IfOk result (λ n.
            does self.old (Read file (length buf.old) (take n buf.new)) self.new) }
        ensures failed { IfErr result (λ e. fails self.old (Reading file) e self.new) };

    /// Prints all of these bytes, or a front of them and then fails.
    fn print(&mut self, bytes: &[u8]) -> Result<(), Self::Error>
        ensures less { most self.new ≤ most self.old }
        ensures printed { MatchResult result
            (λ _. does self.old (Printed bytes.now) self.new)
            (λ e. CutOff does fails self.old Printed Printing bytes.now e self.new) };

    /// Stores all of these bytes, or a front of them and then fails.
    fn store(&mut self, bytes: &[u8]) -> Result<(), Self::Error>
        ensures less { most self.new ≤ most self.old }
        ensures stored { MatchResult result
            (λ _. does self.old (Stored bytes.now) self.new)
            (λ e. CutOff does fails self.old Stored Storing bytes.now e self.new) };
}
