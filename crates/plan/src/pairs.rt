// Pairs of faces, as bytes.
ghost use Rattle.std.specs.Prelude.{◌≡◌, IfOk};
ghost use Rattle.plan.specs.PairBytes.{offerings_in, offerings_left, pair_bytes};

use inspection::Offering;
use std::alloc::{AllocError, Global};

/// The offers that are left of some bytes.
#[derive(Clone, Copy)]
pub struct PairOfferings<'a> {
    bytes: &'a [u8],
}

impl<'a> Iterator for PairOfferings<'a> {
    ghost use Rattle.std.specs.Iterator.{YieldsFirst, item_count};

    type Item = Offering;

    ghost next_gives = { YieldsFirst offerings_left };

    ghost remaining = { item_count offerings_left };

    fn next(&mut self) -> Option<Offering> {
        let [a, b, c, d, rest @ ..] = self.bytes else {
            return None;
        };
        let first = u16::from_le_bytes([*a, *b]);
        let second = u16::from_le_bytes([*c, *d]);
        self.bytes = rest;
        Some(Offering::Faces(first, second))
    }
}

/// The offers that these bytes hold, one after another: two face numbers of two bytes each, the
/// lower byte first. A rest of under four bytes is skipped.
pub fn pair_offerings(bytes: &[u8]) -> PairOfferings<'_>
    ensures { offerings_left result ≡ offerings_in bytes.now }
{
    PairOfferings { bytes }
}

/// The same, all at once.
pub fn offerings_in(alloc: Global, bytes: &[u8]) -> Result<Vec<Offering>, AllocError>
    ensures { IfOk result (λ v. v.items ≡ offerings_in bytes.now) }
{
    pair_offerings(bytes).collect(alloc)
}

/// The bytes that hold a pair.
pub fn pair_bytes(pair: Offering) -> [u8; 4]
    ensures { result ≡ pair_bytes pair }
{
    let Offering::Faces(first, second) = pair;
    let [a, b] = first.to_le_bytes();
    let [c, d] = second.to_le_bytes();
    [a, b, c, d]
}
