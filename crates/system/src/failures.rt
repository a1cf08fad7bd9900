// What stops a program's work on the system.
ghost use Rattle.std.specs.Prelude.{◌≡◌, MatchResult};

use std::fmt::Display;
use std::io;

/// Where a call failed.
#[derive(Clone, Copy, Debug, PartialEq, Eq)]
pub enum Site<F> {
    /// A file that is read.
    File(F),
    /// Standard output.
    Output,
    /// The file that is stored.
    Target,
    /// Memory that a run takes before it begins.
    Memory,
}

/// A call that failed, and why.
#[derive(Clone, Copy, Debug)]
pub struct Failure<F> {
    pub site: Site<F>,
    pub reason: io::Error,
}

/// What was done at a site, or the failure there.
pub(crate) fn at<F, T>(site: Site<F>, done: io::Result<T>) -> Result<T, Failure<F>>
where
    F: Drop,
    ensures { MatchResult done (λ x. result ≡ Ok x)
        (λ e. result ≡ Err (record { site = site; reason = e })) }
{
    match done {
        Ok(x) => Ok(x),
        Err(reason) => Err(Failure { site, reason }),
    }
}

/// Tells in one line on standard error what stops a program. What cannot be told is left.
pub fn tell<T: Display + Drop>(rt: &HostRuntime, name: &str, reason: T) {
    let _ = eprintln!(rt; "{name}: {reason}");
}
