// The memory that is lent for the larger works.
ghost use Rattle.std.specs.Prelude.{◌≡◌};

use near_faces::Pair;
use pairing::{PAIR_BYTES, PAIR_LIMIT};

/// Tables for as many pairs as an inspection accepts, and for their bytes. What they hold does not
/// matter.
#[repr(C)]
#[derive(Drop)]
pub struct Room {
    pub near: [Pair; PAIR_LIMIT],
    pub bytes: [u8; PAIR_BYTES],
}

/// How many bytes a room has.
#[unsafe(no_mangle)]
pub extern "C" fn page_room() -> usize
    ensures { result ≡ 8000000 }
{
    size_of::<Room>()
}
