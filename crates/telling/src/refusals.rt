// Refused pairs.

use std::str;
use wording::{WORDS_ROOM, refused_words};

/// Tells how many pairs were refused, if any were, by the name of what held them, and what can be
/// done then.
pub fn tell_refused(rt: &HostRuntime, name: &str, count: u64, advice: &str) {
    if count == 0 {
        return;
    }
    let mut words = [0; WORDS_ROOM];
    let len = refused_words(usize::try_from(count).unwrap_or(usize::MAX), &mut words);
    let words = str::from_utf8(&words[..len]).unwrap_or("");
    let _ = eprintln!(rt; "{name}: {words}{advice}");
}
