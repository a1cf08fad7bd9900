// What faults of a step's record say in words.

use crate::texts::Text;

/// The record ends early.
pub(crate) fn put_early_end(text: &mut Text, point: u32, field: u32) {
    text.put("The record of the step ends early: the ");
    if field == 0 {
        text.put("map of point ");
        text.put_number(u64::from(point));
    } else {
        text.put("move of point ");
        text.put_number(u64::from(point));
        text.put(" in ");
        text.put(axis(field));
    }
    text.put(" is not there.");
}

/// The map has a bit that stands for no axis.
pub(crate) fn put_map(text: &mut Text, point: u32) {
    text.put("The map of point ");
    text.put_number(u64::from(point));
    text.put(" in the record of the step is over 7.");
}

/// A move is zero.
pub(crate) fn put_zero(text: &mut Text, point: u32, field: u32) {
    text.put("The record of the step has a move of zero for point ");
    text.put_number(u64::from(point));
    text.put(" in ");
    text.put(axis(field));
    text.put(".");
}

/// A point ends outside.
pub(crate) fn put_outside(text: &mut Text, point: u32, field: u32) {
    text.put("Point ");
    text.put_number(u64::from(point));
    text.put(" ends outside −4,096 to 4,096 in ");
    text.put(axis(field));
    text.put(".");
}

/// The axis of a field.
fn axis(field: u32) -> &'static str {
    match field {
        1 => "x",
        2 => "y",
        _ => "z",
    }
}
