// What is said, as text.
use std::test::Fail;
use wording::{WORDS_ROOM, counts_differ_words, face_differs_words, fault_words, refused_words};

/// Whether this is what is said of a fault.
pub(crate) fn says(number: u32, places: (u32, u32), line: &[u8], sentence: &str) -> bool {
    let mut words = [0; WORDS_ROOM];
    let len = fault_words(number, places.0, places.1, line, &mut words);
    &words[..len] == sentence.as_bytes()
}

/// Whether this is what is said of so many refused pairs.
pub(crate) fn says_refused(count: usize, sentence: &str) -> bool {
    let mut words = [0; WORDS_ROOM];
    let len = refused_words(count, &mut words);
    &words[..len] == sentence.as_bytes()
}

/// Whether this is what is said of two frames that have not as many of these things.
pub(crate) fn says_counts_differ(first: u16, second: u16, things: &str, sentence: &str) -> bool {
    let mut words = [0; WORDS_ROOM];
    let len = counts_differ_words(first, second, things, &mut words);
    &words[..len] == sentence.as_bytes()
}

/// Whether this is what is said of two frames that differ in a face.
pub(crate) fn says_face_differs(face: usize, sentence: &str) -> bool {
    let mut words = [0; WORDS_ROOM];
    let len = face_differs_words(face, &mut words);
    &words[..len] == sentence.as_bytes()
}

#[test]
fn as_far_as_there_is_room(rt: HostRuntime) -> Result<(), Fail> {
    let mut words = [b'-'; 8];
    assert_eq!(rt; fault_words(18, 7, 0, b"", &mut words), 8);
    assert_eq!(rt; words, *b"Both fac");
    let mut words = [b'-'; 48];
    assert_eq!(rt; fault_words(18, 7, 0, b"", &mut words), 34);
    assert_eq!(rt; words, *b"Both faces of the pair are face 7.--------------");
    Ok(())
}
