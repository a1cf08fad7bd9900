// A call that fails stops the run, and what was done before stands.
use crate::failing::{Failed, Log, TestHost};
use crate::plans::{SHEET, STEP};
use hosts::Page;
use plan::Ending;
use std::test::Fail;
use works::inspect::{Tables, inspect_plan};

/// Where a call fails after so many that go well, these calls were made, by their letters, this was
/// printed and this stored; or all went well.
fn stops(
    pairs: &[u8],
    well: usize,
    letters: &[u8],
    text: &[u8],
    refused: &[u8],
    answer: Result<Ending, Failed>,
) -> Result<(), Fail> {
    let mut tables = Tables::new();
    let mut page = [0; 256];
    let mut stored = [0; 16];
    let mut calls = [0; 16];
    let mut host = TestHost {
        sheet: SHEET,
        step: STEP,
        pairs,
        page: Page::new(&mut page),
        stored: Page::new(&mut stored),
        log: Log {
            letters: Page::new(&mut calls),
            well,
        },
    };
    let came = inspect_plan(&mut tables, &mut host);
    let (printed_len, stored_len, calls_len) = (
        host.page.len(),
        host.stored.len(),
        host.log.letters.len(),
    );
    if came != answer {
        return Err(Fail::new("another answer"));
    }
    if calls_len != letters.len() || !calls.starts_with(letters) {
        return Err(Fail::new("other calls"));
    }
    if printed_len != text.len() || !page.starts_with(text) {
        return Err(Fail::new("another text"));
    }
    if stored_len != refused.len() || !stored.starts_with(refused) {
        return Err(Fail::new("other pairs refused"));
    }
    Ok(())
}

#[test]
fn each_call_can_stop_it() -> Result<(), Fail> {
    let pairs = b"\x01\x00\x01\x00\x00\x00\x01\x00";
    let told = b"fault 18 offer 1 0\n".as_slice();
    let refused = b"\x01\x00\x01\x00".as_slice();
    let none = b"".as_slice();
    for (well, letters, text, stored) in [
        (0, b"".as_slice(), none, none),
        (1, b"S".as_slice(), none, none),
        (2, b"SM".as_slice(), none, none),
        (3, b"SMP".as_slice(), none, none),
        (4, b"SMPp".as_slice(), told, none),
        (5, b"SMPps".as_slice(), told, refused),
        (
            6,
            b"SMPpsp".as_slice(),
            b"fault 18 offer 1 0\nVF 3 0 1 2\n".as_slice(),
            refused,
        ),
        (
            7,
            b"SMPpspp".as_slice(),
            b"fault 18 offer 1 0\nVF 3 0 1 2\nVF kept 1 struck 5 shared 0 repeated 0\n".as_slice(),
            refused,
        ),
    ] {
        stops(pairs, well, letters, text, stored, Err(Failed))?;
    }
    stops(
        pairs,
        8,
        b"SMPpsppp",
        b"fault 18 offer 1 0\nVF 3 0 1 2\nVF kept 1 struck 5 shared 0 repeated 0\nEE kept 0 struck 9 shared 0 repeated 0\n",
        refused,
        Ok(Ending::Complete),
    )
}

/// The first 16,384 bytes come, and then the file fails: all is told of the pairs that came.
#[test]
fn a_file_that_fails_half_way_has_its_refusals_told(rt: HostRuntime) -> Result<(), Fail> {
    let mut pairs = Vec::new(rt.alloc());
    pairs.extend_from_slice(b"\x01\x00\x01\x00")?;
    for _ in 0..4094 {
        pairs.extend_from_slice(b"\x00\x00\x01\x00")?;
    }
    pairs.extend_from_slice(b"\x00\x00\x02\x00")?;
    pairs.extend_from_slice(b"\x00\x00\x00\x00")?;
    stops(
        pairs.as_slice(),
        7,
        b"SMPpsps",
        b"fault 18 offer 1 0\nfault 17 offer 2 0\n",
        b"\x01\x00\x01\x00\x00\x00\x02\x00",
        Err(Failed),
    )
}
