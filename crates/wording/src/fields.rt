// The fields of a line of a sheet's text.
ghost use Rattle.std.specs.Prelude.{◌≡◌, ◌==◌, drop};
ghost use Rattle.std.specs.List.{before_first, after_first};
ghost use Rattle.sheet.specs.Lines.{fields_of};

/// A field of a point's or a face's line, as the reader of a sheet splits it; one that is missing is
/// empty.
pub(crate) fn field_of(line: &[u8], field: u32) -> &[u8]
    ensures first { field ≡ 1 → result.now ≡ (fields_of (drop 2 line.now)).first }
    ensures second { field ≡ 2 → result.now ≡ (fields_of (drop 2 line.now)).second }
    ensures third { field ≡ 3 → result.now ≡ (fields_of (drop 2 line.now)).third }
{
    let (first, rest) = cut_at_space(behind_letter(line));
    let (second, third) = cut_at_space(rest);
    match field {
        1 => first,
        2 => second,
        _ => third,
    }
}

/// What follows the letter and the space.
fn behind_letter(line: &[u8]) -> &[u8]
    ensures { result.now ≡ drop 2 line.now }
{
    let start = line.len().min(2);
    &line[start..]
}

/// What stands before the first space and what after it; all and nothing, where there is none.
fn cut_at_space(bytes: &[u8]) -> (&[u8], &[u8])
    ensures front { result.0.now ≡ before_first (λ b. b == 32) bytes.now }
    ensures back { result.1.now ≡ after_first (λ b. b == 32) bytes.now }
{
    match bytes.iter().position(|b| *b == b' ') {
        Some(i) => (&bytes[..i], &bytes[i + 1..]),
        None => (bytes, &[]),
    }
}
