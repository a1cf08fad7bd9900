// A text cut in two at the first byte of a kind: lines at a line feed, fields at a space.
ghost use Rattle.std.specs.Prelude.{◌≡◌, ◌==◌};
ghost use Rattle.std.specs.List.{before_first, after_first};

/// What stands before the first `byte` of `text`, and what after it; the whole and nothing, if there
/// is none.
pub(crate) fn cut(text: &[u8], byte: u8) -> (&[u8], &[u8])
    ensures front { result.0.now ≡ before_first (λ b. b == byte) text.now }
    ensures back { result.1.now ≡ after_first (λ b. b == byte) text.now }
{
    match text.iter().position(|b| *b == byte) {
        Some(i) => (&text[..i], &text[i + 1..]),
        None => (text, &[]),
    }
}
