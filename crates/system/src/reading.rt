// Reading in pieces.
ghost use Rattle.std.specs.Prelude.{◌<◌, ◌≤◌, length, take, IfOk};
ghost use Rattle.std.specs.Io.KnownBytes.{Consumes, IsAtEnd};

use std::io;
use std::io::{ErrorKind, Read};

/// Reads until the buffer is full or the reader ends: how many bytes came.
#[tactic(auto, using(crate::proofs::Pieces::came_on, crate::proofs::Pieces::came_no_more))]
pub(crate) fn fill_from<R: Read>(reader: &mut R, buf: &mut [u8]) -> io::Result<usize>
    ensures few { IfOk result (λ n. n ≤ length buf.old) }
    ensures came { IfOk result (λ n.
        Consumes (R.remaining reader.old) (R.remaining reader.new) (take n buf.new)) }
    ensures end { IfOk result (λ n. n < length buf.old → IsAtEnd (R.remaining reader.new)) }
{
    let mut len = 0usize;
    for _ in 0..u64::MAX {
        if len >= buf.len() {
            return Ok(len);
        }
        match reader.read(&mut buf[len..]) {
            Ok(0) => return Ok(len),
            Ok(n) => len += n,
            Err(e) => {
                if e.kind() != ErrorKind::Interrupted {
                    return Err(e);
                }
            }
        }
    }
    Err(io::Error::other("it was interrupted too often"))
}
