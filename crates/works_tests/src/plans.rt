// Plans in memory, and what is printed and stored of them.
use plan::Ending;
use sheet::{Layer, Notice};
use std::test::Fail;
use works::inspect::{Inspected, Tables, inspect_bytes};

pub const SHEET: &[u8] =
    b"v 0 0 0\nv 4 0 0\nv 0 4 0\nv 1 1 1\nv 1 1 9\nv 2 1 9\nf 1 2 3\nf 4 5 6\n";

/// A corner of the second face sinks through the first.
pub const STEP: &[u8] = b"\x00\x00\x00\x04\xfe\xff\x00\x00";

const NOTHING: &[u8] =
    b"VF kept 0 struck 0 shared 0 repeated 0\nEE kept 0 struck 0 shared 0 repeated 0\n";

const ONE_TOUCH: &[u8] =
    b"VF 3 0 1 2\nVF kept 1 struck 5 shared 0 repeated 0\nEE kept 0 struck 9 shared 0 repeated 0\n";

const ONE_TOUCH_AFTER_A_REFUSAL: &[u8] =
    b"fault 18 offer 1 0\nVF 3 0 1 2\nVF kept 1 struck 5 shared 0 repeated 0\nEE kept 0 struck 9 shared 0 repeated 0\n";

/// An edge of the second face sinks through one of the first, and each face has a corner far off.
const TWO_EDGES: &[u8] =
    b"v -2 0 0\nv 2 0 0\nv 0 9 -9\nv 0 -2 1\nv 0 2 1\nv 0 9 9\nf 1 2 3\nf 4 5 6\n";

const EDGE_SINKS: &[u8] = b"\x00\x00\x00\x04\xfe\xff\x04\xfe\xff\x04\xfe\xff";

const EDGES_TOUCH: &[u8] =
    b"VF kept 0 struck 6 shared 0 repeated 0\nEE 0 1 3 4 1 2\nEE kept 1 struck 8 shared 0 repeated 0\n";

/// Inspects a plan in memory, with tables of its own.
pub(crate) fn inspect(
    sheet: &[u8],
    step: &[u8],
    pairs: &[u8],
    page: &mut [u8],
    stored: &mut [u8],
) -> Inspected {
    let mut tables = Tables::new();
    inspect_bytes(&mut tables, sheet, step, pairs, page, stored)
}

/// The run prints this text, stores these pairs, and ends so.
fn comes(
    sheet: &[u8],
    step: &[u8],
    pairs: &[u8],
    text: &[u8],
    refused: &[u8],
    ending: Ending,
) -> Result<(), Fail> {
    let mut page = [0; 256];
    let mut stored = [0; 16];
    let inspected = inspect(sheet, step, pairs, &mut page, &mut stored);
    if inspected.ending != ending {
        return Err(Fail::new("another ending"));
    }
    if inspected.printed_len != text.len() || !page.starts_with(text) {
        return Err(Fail::new("another text"));
    }
    if inspected.stored_len != refused.len() || !stored.starts_with(refused) {
        return Err(Fail::new("other pairs refused"));
    }
    Ok(())
}

#[test]
fn a_touch_is_printed() -> Result<(), Fail> {
    comes(
        SHEET,
        STEP,
        b"\x00\x00\x01\x00",
        ONE_TOUCH,
        b"",
        Ending::Complete,
    )
}

#[test]
fn a_refused_pair_is_told_stored_and_passed_over() -> Result<(), Fail> {
    comes(
        SHEET,
        STEP,
        b"\x01\x00\x01\x00\x00\x00\x01\x00\x07",
        ONE_TOUCH_AFTER_A_REFUSAL,
        b"\x01\x00\x01\x00",
        Ending::Complete,
    )
}

#[test]
fn refused_pairs_are_stored_as_they_came() -> Result<(), Fail> {
    comes(
        SHEET,
        STEP,
        b"\x02\x01\x00\x00\x00\x00\xff\xfe",
        b"fault 17 offer 258 0\nfault 17 offer 65279 0\nVF kept 0 struck 0 shared 0 repeated 0\nEE kept 0 struck 0 shared 0 repeated 0\n",
        b"\x02\x01\x00\x00\x00\x00\xff\xfe",
        Ending::Complete,
    )
}

#[test]
fn edges_that_touch_are_printed() -> Result<(), Fail> {
    comes(
        TWO_EDGES,
        EDGE_SINKS,
        b"\x00\x00\x01\x00",
        EDGES_TOUCH,
        b"",
        Ending::Complete,
    )
}

#[test]
fn without_pairs_nothing_is_counted() -> Result<(), Fail> {
    comes(SHEET, STEP, b"", NOTHING, b"", Ending::Complete)
}

#[test]
fn a_fault_of_the_sheet_ends_the_run() -> Result<(), Fail> {
    comes(
        b"v 1 2\n",
        STEP,
        b"",
        b"fault 1 field 1 3\n",
        b"",
        Ending::Faulty(Notice::new(1, Layer::Field, 1, 3)),
    )
}

#[test]
fn a_fault_of_the_step_ends_the_run() -> Result<(), Fail> {
    comes(
        SHEET,
        b"\x08",
        b"",
        b"fault 9 step 0 0\n",
        b"",
        Ending::Faulty(Notice::new(9, Layer::Step, 0, 0)),
    )
}

#[test]
fn a_page_too_short_cuts_the_text_and_its_length_is_told(rt: HostRuntime) {
    let pairs = b"\x01\x00\x01\x00\x00\x00\x01\x00";
    let mut page = [0; 10];
    let mut stored = [7; 6];
    let inspected = inspect(SHEET, STEP, pairs, &mut page, &mut stored);
    assert!(rt; page.as_slice() == b"fault 18 o".as_slice());
    assert_eq!(rt; inspected.printed_len, ONE_TOUCH_AFTER_A_REFUSAL.len());
    assert!(rt; stored.as_slice() == b"\x01\x00\x01\x00\x07\x07".as_slice());
    assert_eq!(rt; inspected.stored_len, 4);
}
