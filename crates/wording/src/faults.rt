// What a fault says in words.
ghost use Rattle.std.specs.Prelude.{◌≡◌, ◌≤◌, length, drop};

use crate::advice::{advice_on_field, advice_on_line};
use crate::fields::field_of;
use crate::records::{put_early_end, put_map, put_outside, put_zero};
use crate::texts::Text;

/// Puts what the fault with this number and these places says into the front of these bytes, as far
/// as they have room, and answers how many bytes these are: none for a number that has no words.
///
/// `line` is the line of the text that the fault speaks of, empty where it speaks of none or where
/// it is not known.
pub fn fault_words(number: u32, first: u32, second: u32, line: &[u8], words: &mut [u8]) -> usize
    ensures few { result ≤ length words.old }
    ensures rest { drop result words.new ≡ drop result words.old }
{
    let mut text = Text::new();
    match number {
        1 => put_field(&mut text, second, line),
        2 => put_no_start(&mut text, line),
        3 => put_field_that(
            &mut text,
            second,
            line,
            " is a coordinate outside −4,096 to 4,096.",
        ),
        4 => put_field_that(&mut text, second, line, " names no point above the line."),
        5 => put_field_that(
            &mut text,
            second,
            line,
            " names a point that an earlier field of the line names.",
        ),
        7 => text.put(no_room(line)),
        8 => put_early_end(&mut text, first, second),
        9 => put_map(&mut text, first),
        10 => put_zero(&mut text, first, second),
        11 => put_outside(&mut text, first, second),
        17 => put_face(&mut text, "The sheet has no face ", first, "."),
        18 => put_face(&mut text, "Both faces of the pair are face ", first, "."),
        19 => put_face(
            &mut text,
            "Face ",
            first,
            " names a point that is not there.",
        ),
        _ => text.put(sentence(number)),
    }
    text.copy_to(words)
}

/// The faults that always say the same.
fn sentence(number: u32) -> &'static str {
    match number {
        6 => "The text has more than 65,536 bytes, which is the most that a sheet has.",
        12 => "The record of the step goes on after its last point: bytes are left over.",
        13 | 14 | 16 | 23 | 24 => "A table is too short.",
        20 => "A million offers were accepted already.",
        21 => "A list had too little room left: each has room for 512 tests.",
        25 => "There are more than 1,000,000 near pairs.",
        _ => "",
    }
}

/// A field is not a number.
fn put_field(text: &mut Text, field: u32, line: &[u8]) {
    let value = field_of(line, field);
    if value.is_empty() && !line.is_empty() {
        text.put(name_of(field));
        text.put(" is missing.");
        return;
    }
    put_field_that(
        text,
        field,
        line,
        " is not a whole number of at most five digits.",
    );
    text.put(advice_on_field(line, value));
}

/// A field, with its value where the line is known, and what is wrong with it.
fn put_field_that(text: &mut Text, field: u32, line: &[u8], fault: &str) {
    text.put(name_of(field));
    if !line.is_empty() {
        text.put(", ");
        text.put_value(field_of(line, field));
        text.put(",");
    }
    text.put(fault);
}

fn name_of(field: u32) -> &'static str {
    match field {
        1 => "The first field",
        2 => "The second field",
        _ => "The third field",
    }
}

/// A line has no such start.
fn put_no_start(text: &mut Text, line: &[u8]) {
    text.put("The line is neither a point (“v ”) nor a face (“f ”), nor is it empty or a comment.");
    text.put(advice_on_line(line));
}

/// There is no room for the line's point or face.
fn no_room(line: &[u8]) -> &'static str {
    if line.starts_with(b"v ") {
        return "There is no room for this point: a sheet has at most 2,048.";
    }
    "There is no room for this face: a sheet has at most 4,096."
}

/// A sentence with a face in it.
fn put_face(text: &mut Text, before: &str, face: u32, after: &str) {
    text.put(before);
    text.put_number(u64::from(face));
    text.put(after);
}
