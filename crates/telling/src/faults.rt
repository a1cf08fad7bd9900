// The fault that ended a run.

use crate::lines::line_of;
use sheet::{Layer, Notice};
use std::{fs, str};
use system::tell;
use wording::{WORDS_ROOM, fault_words};

/// Tells the fault of a file in words, with the line that it is in. The line is read again, so that
/// its text can be told, where the file is a plain one.
pub fn tell_fault(rt: &HostRuntime, path: &str, fault: Notice) {
    let mut words = [0; WORDS_ROOM];
    let number = line_number(fault);
    let text = text_at(rt, path, number);
    let line = line_of(&text, number);
    let len = fault_words(
        u32::from(fault.number),
        fault.first,
        fault.second,
        line,
        &mut words,
    );
    let words = str::from_utf8(&words[..len]).unwrap_or("");
    match (number, words) {
        (_, "") => tell(rt, path, fault),
        (0, _) => tell(rt, path, words),
        _ => {
            let _ = eprintln!(rt; "{path}, line {number}: {words}");
        }
    }
}

/// The line of a text that has the fault, counted from 1; 0 where it is in none.
fn line_number(fault: Notice) -> u32 {
    match fault.layer {
        Layer::Field | Layer::Line | Layer::Sheet => fault.first,
        _ => 0,
    }
}

/// The text at a path, as far as it is needed and can be read; a file that is no plain one may have
/// come to its end.
fn text_at(rt: &HostRuntime, path: &str, number: u32) -> Vec<u8> {
    if number == 0 {
        return Vec::new(rt.alloc());
    }
    match fs::metadata(rt, path) {
        Ok(found) if found.is_file() => fs::read(rt, path).unwrap_or(Vec::new(rt.alloc())),
        _ => Vec::new(rt.alloc()),
    }
}
