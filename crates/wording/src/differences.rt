// What is said of two frames that differ.
ghost use Rattle.std.specs.Prelude.{◌≡◌, ◌≤◌, length, drop};

use crate::texts::Text;

/// Puts what is to be said of two frames that have not as many points, or not as many faces, into the
/// front of these bytes, as far as they have room, and answers how many bytes these are.
pub fn counts_differ_words(first: u16, second: u16, things: &str, words: &mut [u8]) -> usize
    ensures few { result ≤ length words.old }
    ensures rest { drop result words.new ≡ drop result words.old }
{
    let mut text = Text::new();
    text.put("These are no frames of one sheet: the first has ");
    text.put_number(u64::from(first));
    text.put(" ");
    text.put(things);
    text.put(", the second ");
    text.put_number(u64::from(second));
    text.put(".");
    text.copy_to(words)
}

/// Puts what is to be said of two frames that differ in a face, counted from 0, into the front of
/// these bytes, as far as they have room, and answers how many bytes these are.
pub fn face_differs_words(face: usize, words: &mut [u8]) -> usize
    ensures few { result ≤ length words.old }
    ensures rest { drop result words.new ≡ drop result words.old }
{
    let mut text = Text::new();
    text.put("These are no frames of one sheet: face ");
    text.put_number(face as u64);
    text.put(", counted from 0, is another one.");
    text.copy_to(words)
}
