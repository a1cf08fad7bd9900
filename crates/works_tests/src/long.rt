// More pairs than are read at a time.
use crate::plans::{SHEET, STEP, inspect};
use plan::Ending;
use std::alloc::{AllocError, Global};
use std::test::Fail;

/// So many times the pair that touches, and then one that is refused.
fn pairs_of(alloc: Global, count: usize) -> Result<Vec<u8>, AllocError> {
    let mut pairs = Vec::new(alloc);
    for _ in 0..count {
        pairs.extend_from_slice(b"\x00\x00\x01\x00")?;
    }
    pairs.extend_from_slice(b"\x01\x00\x01\x00")?;
    Ok(pairs)
}

/// These pairs print this text, and the last of them is stored.
fn comes(alloc: Global, count: usize, text: &[u8]) -> Result<(), Fail> {
    let pairs = pairs_of(alloc, count)?;
    let mut page = [0; 256];
    let mut stored = [0; 8];
    let inspected = inspect(SHEET, STEP, pairs.as_slice(), &mut page, &mut stored);
    if inspected.ending != Ending::Complete {
        return Err(Fail::new("another ending"));
    }
    if inspected.printed_len != text.len() || !page.starts_with(text) {
        return Err(Fail::new("another text"));
    }
    if inspected.stored_len != 4 || !stored.starts_with(b"\x01\x00\x01\x00") {
        return Err(Fail::new("other pairs refused"));
    }
    Ok(())
}

/// The touch is kept once and repeated from then on; all else of the pair is struck each time.
#[test]
fn every_pair_of_a_long_file_is_offered(rt: HostRuntime) -> Result<(), Fail> {
    comes(
        rt.alloc(),
        4095,
        b"fault 18 offer 1 0\nVF 3 0 1 2\nVF kept 1 struck 20475 shared 0 repeated 4094\nEE kept 0 struck 36855 shared 0 repeated 0\n",
    )?;
    comes(
        rt.alloc(),
        4096,
        b"fault 18 offer 1 0\nVF 3 0 1 2\nVF kept 1 struck 20480 shared 0 repeated 4095\nEE kept 0 struck 36864 shared 0 repeated 0\n",
    )?;
    comes(
        rt.alloc(),
        17000,
        b"fault 18 offer 1 0\nVF 3 0 1 2\nVF kept 1 struck 85000 shared 0 repeated 16999\nEE kept 0 struck 153000 shared 0 repeated 0\n",
    )
}
