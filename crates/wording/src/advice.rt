// What to do about a line, where the reason is plain.

/// Advice on a field that is no number.
pub(crate) fn advice_on_field(line: &[u8], value: &[u8]) -> &'static str {
    let is_point = line.starts_with(b"v ");
    if line.ends_with(b"\r") {
        return " The line ends with a carriage return: save the file with line feeds alone.";
    }
    if !is_point && value.contains(&b'/') {
        return " A face names its points and nothing else, as “f 1 2 3”.";
    }
    if is_point && is_broken_number(value) {
        return " Coordinates are whole numbers: scale the sheet and round.";
    }
    if value.contains(&b' ') {
        return " A point or a face has three fields, with one space between two of them.";
    }
    ""
}

/// A number with a point or an exponent.
fn is_broken_number(value: &[u8]) -> bool {
    value.iter().all(|b| is_of_number(*b)) && value.iter().any(|b| is_break(*b))
}

fn is_of_number(b: u8) -> bool {
    b.is_ascii_digit() || b == b'-' || b == b'+' || is_break(b)
}

fn is_break(b: u8) -> bool {
    b == b'.' || b == b'e' || b == b'E'
}

/// Advice on a line that has no such start.
pub(crate) fn advice_on_line(line: &[u8]) -> &'static str {
    if line.starts_with("\u{feff}".as_bytes()) {
        return " It begins with a byte order mark: save the file without one.";
    }
    if !line.is_empty() && line.trim_ascii().is_empty() {
        return " It has nothing but spaces or a carriage return.";
    }
    if is_other_statement(first_word(line)) {
        return " Export the points and faces alone, without normals, texture, groups or materials.";
    }
    ""
}

/// What stands before the first space of any kind.
fn first_word(line: &[u8]) -> &[u8] {
    match line.iter().position(|b| b.is_ascii_whitespace()) {
        Some(i) => &line[..i],
        None => line,
    }
}

/// A statement of Wavefront OBJ that is neither a point nor a face.
fn is_other_statement(word: &[u8]) -> bool {
    matches!(
        word,
        b"vn" | b"vt" | b"vp" | b"o" | b"g" | b"s" | b"l" | b"usemtl" | b"mtllib"
    )
}
