// What a program is asked for.
ghost use Rattle.std.specs.Prelude.{◌≡◌, ◌≢◌, ◌≤◌, All, IfSome, IfOk, IfErr, IsFalse, string_len, vec_len};

use crate::tell;
use crate::words::{Asked, Given, read_words};
use std::io::{ErrorKind, Print};
use std::{env, io};

/// A program's texts.
#[derive(Clone, Copy)]
pub struct About {
    /// Its name and its number.
    pub version: &'static str,
    /// Its usage in one line.
    pub usage: &'static str,
    pub help: &'static str,
    /// How many words it takes beside its options.
    pub least: usize,
    pub most: usize,
    pub has_refused: bool,
}

/// What a program is given, or the exit status where there is nothing more to do: a help was
/// printed, or it was told what is wrong.
pub fn given(rt: &HostRuntime, about: &About) -> Result<Given, u8>
    ensures status { IfErr result (λ status. status ≤ 1) }
    ensures count { IfOk result (λ g. about.now.least ≤ vec_len g.operands) }
    ensures few { IfOk result (λ g. vec_len g.operands ≤ about.now.most) }
    ensures operands { IfOk result (λ g. All (λ w. string_len w ≢ 0) g.operands.items) }
    ensures refused { IfOk result (λ g. IfSome g.refused (λ w. string_len w ≢ 0)) }
{
    let words = match env::args(rt) {
        Ok(words) => words,
        Err(e) => return Err(untold(rt, e)),
    };
    match read_words(rt.alloc(), words, about.has_refused) {
        Ok(Asked::Work(given)) => {
            let count = given.operands.len();
            if count < about.least || count > about.most {
                return Err(told_usage(rt, about));
            }
            if has_empty(&given) {
                return Err(told_empty(rt));
            }
            Ok(given)
        }
        Ok(Asked::Help) => Err(printed(rt, about.help)),
        Ok(Asked::Version) => Err(printed(rt, about.version)),
        Ok(Asked::Unknown(word)) => {
            tell(rt, word.as_str(), "no such option");
            Err(told_usage(rt, about))
        }
        Ok(Asked::Wrong) => Err(told_usage(rt, about)),
        Err(_) => Err(out_of_memory(rt)),
    }
}

fn printed(rt: &HostRuntime, text: &str) -> u8
    ensures { result ≤ 1 }
{
    match rt.write_all(text.as_bytes()) {
        Ok(()) => 0,
        Err(e) => {
            tell(rt, "standard output", e);
            1
        }
    }
}

fn told_usage(rt: &HostRuntime, about: &About) -> u8
    ensures { result ≡ 1 }
{
    tell(rt, "usage", about.usage);
    1
}

fn untold(rt: &HostRuntime, reason: io::Error) -> u8
    ensures { result ≡ 1 }
{
    if reason.kind() == ErrorKind::InvalidData {
        tell(rt, "arguments", "one is no text in UTF-8");
    } else {
        tell(rt, "arguments", reason);
    }
    1
}

/// Whether a word names nothing, since it is empty.
fn has_empty(given: &Given) -> bool
    ensures operands { IsFalse result → All (λ w. string_len w ≢ 0) given.now.operands.items }
    ensures refused { IsFalse result → IfSome given.now.refused (λ w. string_len w ≢ 0) }
{
    let refused = given.refused.as_ref();
    given.operands.iter().any(|word| word.is_empty()) || refused.is_some_and(|word| word.is_empty())
}

fn told_empty(rt: &HostRuntime) -> u8
    ensures { result ≡ 1 }
{
    let reason = "one is empty, and names no file and no folder";
    tell(rt, "arguments", reason);
    1
}

/// Tells that there is not enough memory.
fn out_of_memory(rt: &HostRuntime) -> u8
    ensures { result ≡ 1 }
{
    tell(rt, "memory", "out of memory");
    1
}
