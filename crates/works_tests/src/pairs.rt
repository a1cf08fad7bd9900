// The pairs that bytes hold.
use inspection::Offering;
use plan::{offerings_in, pair_offerings};
use std::alloc::{AllocError, Global};
use std::test::Fail;

/// The first three pairs that come one after another, and those that come all at once.
fn both_ways(
    alloc: Global,
    bytes: &[u8],
) -> Result<([Option<Offering>; 3], Vec<Offering>), AllocError> {
    let mut pairs = pair_offerings(bytes);
    let first_three = [pairs.next(), pairs.next(), pairs.next()];
    Ok((first_three, offerings_in(alloc, bytes)?))
}

#[test]
fn of_bytes(rt: HostRuntime) -> Result<(), Fail> {
    let (first, second) = (Offering::Faces(0, 1), Offering::Faces(4095, 258));
    let (first_three, offers) = both_ways(rt.alloc(), &[0, 0, 1, 0, 255, 15, 2, 1, 9, 9, 9])?;
    assert_eq!(rt; first_three, [Some(first), Some(second), None]);
    assert_eq!(rt; offers.len(), 2);
    assert_eq!(rt; offers.as_slice(), [first, second].as_slice());
    Ok(())
}
