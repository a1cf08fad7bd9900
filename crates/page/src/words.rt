// What a run has to say in words.
ghost use Rattle.std.specs.Prelude.{◌≡◌, ◌≤◌, length, drop};

use wording::{fault_words, refused_words};

/// What a fault says in words, by its number and its places: puts them into the front of these bytes,
/// as far as they have room, and answers how many bytes these are; none for a number that has no
/// words. `line` is the line of the text that the fault speaks of, empty where it speaks of none.
#[unsafe(no_mangle)]
pub extern "C" fn page_words(
    number: u32,
    first: u32,
    second: u32,
    line: &[u8],
    words: &mut [u8],
) -> usize
    ensures few { result ≤ length words.old }
    ensures rest { drop result words.new ≡ drop result words.old }
{
    fault_words(number, first, second, line, words)
}

/// What is to be said of so many refused pairs: puts it into the front of these bytes, as far as they
/// have room, and answers how many bytes these are.
#[unsafe(no_mangle)]
pub extern "C" fn page_refused_words(count: usize, words: &mut [u8]) -> usize
    ensures few { result ≤ length words.old }
    ensures rest { drop result words.new ≡ drop result words.old }
{
    refused_words(count, words)
}
