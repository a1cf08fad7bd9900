// The bytes of pairs.
ghost use Rattle.std.specs.Prelude.{◌≡◌, ◌*◌, ◌≤◌, length};
ghost use Rattle.sheet.specs.Sheet.{onto_front};
ghost use Rattle.near_faces.specs.Near.{offering_of};
ghost use Rattle.pairing.specs.Pairings.{pairs_bytes};

use inspection::Offering;
use near_faces::Pair;
use plan::pair_bytes;

/// The bytes of these pairs, written into the buffer.
pub(crate) fn put_pairs<'a>(pairs: &[Pair], buffer: &'a mut [u8]) -> &'a [u8]
    requires { 4 * length pairs.now ≤ length buffer.old }
    ensures { result.now ≡ pairs_bytes pairs.now }
{
    let len = put_each(pairs, buffer);
    &buffer[..len]
}

/// Puts the bytes of these pairs into the front of a buffer, and answers their number.
fn put_each(pairs: &[Pair], buffer: &mut [u8]) -> usize
    requires { 4 * length pairs.now ≤ length buffer.old }
    ensures len { result ≡ length (pairs_bytes pairs.now) }
    ensures bytes { buffer.new ≡ onto_front (pairs_bytes pairs.now) buffer.old }
{
    let mut at = 0;
    for pair in pairs {
        buffer[at..at + 4].copy_from_slice(&pair_bytes(pair.offering()));
        at += 4;
    }
    at
}
