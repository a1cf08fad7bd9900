// Two frames that differ.

use frames::Difference;
use std::str;
use wording::{WORDS_ROOM, counts_differ_words, face_differs_words};

/// Tells how the frames at two paths differ.
pub fn tell_difference(rt: &HostRuntime, start: &str, end: &str, difference: Difference) {
    let mut words = [0; WORDS_ROOM];
    let len = match difference {
        Difference::Points(first, second) => {
            counts_differ_words(first, second, "points", &mut words)
        }
        Difference::Faces(first, second) => counts_differ_words(first, second, "faces", &mut words),
        Difference::Face(face) => face_differs_words(face, &mut words),
    };
    let words = str::from_utf8(&words[..len]).unwrap_or("");
    let _ = eprintln!(rt; "{start}, {end}: {words}");
}
