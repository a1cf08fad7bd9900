// What refusals say in words.
ghost use Rattle.std.specs.Prelude.{◌≡◌, ◌≤◌, length, drop};

use crate::texts::Text;

/// Puts what is to be said of so many refused pairs into the front of these bytes, as far as they have
/// room, and answers how many bytes these are.
pub fn refused_words(count: usize, words: &mut [u8]) -> usize
    ensures few { result ≤ length words.old }
    ensures rest { drop result words.new ≡ drop result words.old }
{
    let mut text = Text::new();
    if count == 1 {
        text.put("1 pair was refused. Of it nothing is said.");
    } else {
        text.put_thousands(count as u64);
        text.put(" pairs were refused. Of them nothing is said.");
    }
    text.copy_to(words)
}
