// A text of words that is put together.
ghost use Rattle.std.specs.Prelude.{◌≡◌, ◌≤◌, length, drop};

use arrayvec::ArrayString;
use hosts::copy_front;
use itoa::Buffer;

/// No words are longer.
pub const WORDS_ROOM: usize = 512;

/// So many characters of a sheet's text are told at most.
const VALUE_LIMIT: usize = 40;

/// Words; what has no room is left out.
#[derive(Drop)]
pub(crate) struct Text {
    words: ArrayString<512>,
}

impl Text {
    pub(crate) fn new() -> Text {
        Text {
            words: ArrayString::new(),
        }
    }

    pub(crate) fn put(&mut self, words: &str) {
        let _ = self.words.try_push_str(words);
    }

    pub(crate) fn put_number(&mut self, n: u64) {
        let mut digits = Buffer::new();
        self.put(digits.format(n));
    }

    /// Puts a number with a comma between groups of three digits.
    pub(crate) fn put_thousands(&mut self, n: u64) {
        let mut digits = Buffer::new();
        let digits = digits.format(n).as_bytes();
        for (i, d) in digits.iter().enumerate() {
            if i > 0 && (digits.len() - i) % 3 == 0 {
                self.put(",");
            }
            let _ = self.words.try_push(char::from(*d));
        }
    }

    /// Puts the front of what some bytes of a sheet's text write, between quotation marks, with a
    /// sign in place of each character that cannot be seen.
    pub(crate) fn put_value(&mut self, bytes: &[u8]) {
        self.put("“");
        self.put_seen(bytes);
        self.put("”");
    }

    fn put_seen(&mut self, bytes: &[u8]) {
        let mut left = VALUE_LIMIT;
        for chunk in bytes.utf8_chunks() {
            for c in chunk.valid().chars() {
                if left == 0 {
                    self.put(" ..");
                    return;
                }
                let _ = self.words.try_push(seen(c));
                left -= 1;
            }
            if !chunk.invalid().is_empty() {
                self.put("\u{fffd}");
            }
        }
    }

    /// Puts the words into the front of these bytes, as far as they have room, and answers how many
    /// bytes these are.
    pub(crate) fn copy_to(&self, bytes: &mut [u8]) -> usize
        ensures few { result ≤ length bytes.old }
        ensures rest { drop result bytes.new ≡ drop result bytes.old }
    {
        copy_front(self.words.as_str().as_bytes(), bytes)
    }
}

/// A character for the eye: a sign where it cannot be seen.
fn seen(c: char) -> char {
    match c {
        '\u{7f}' => '\u{2421}',
        '\u{0}'..='\u{1f}' => char::from_u32(0x2400 + c as u32).unwrap_or('\u{fffd}'),
        '\u{80}'..='\u{9f}' | '\u{feff}' => '\u{fffd}',
        _ => c,
    }
}
