// A call that fails stops the work, and what was done before stands.
use crate::failing::Failure;
use crate::recorded::comes;
use std::alloc::Global;
use std::test::Fail;

/// Where a call fails after so many that go well, these calls were made, by their letters, these
/// bytes were stored, and nothing was printed.
fn stops(
    alloc: Global,
    start: &[u8],
    end: &[u8],
    well: usize,
    letters: &[u8],
    stored: &[u8],
) -> Result<(), Fail> {
    let failed = Err(Failure::Meant);
    comes(alloc, start, end, well, letters, stored, b"", failed)
}

#[test]
fn each_call_can_stop_it(rt: HostRuntime) -> Result<(), Fail> {
    let start = b"v 1 1 1\n";
    let end = b"v 1 1 -1\n";
    stops(rt.alloc(), start, end, 0, b"", b"")?;
    stops(rt.alloc(), start, end, 1, b"S", b"")?;
    stops(rt.alloc(), start, end, 2, b"SE", b"")?;
    stops(rt.alloc(), start, end, 3, b"SEs", b"\x04\xfe\xff")
}

#[test]
fn a_fault_that_cannot_be_printed_stops_it(rt: HostRuntime) -> Result<(), Fail> {
    stops(rt.alloc(), b"v 1 2", b"", 1, b"S", b"")
}
