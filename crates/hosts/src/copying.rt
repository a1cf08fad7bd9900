// Bytes copied from one buffer into another.
ghost use Rattle.std.specs.Prelude.{◌≡◌, length, take, min};
ghost use Rattle.hosts.specs.Pages.{onto_page};

/// Copies as much of the front as there is room for, and answers how much.
pub fn copy_front(bytes: &[u8], buf: &mut [u8]) -> usize
    ensures count { result ≡ min (length buf.old) (length bytes.now) }
    ensures front { take result buf.new ≡ take (length buf.old) bytes.now }
    ensures written { buf.new ≡ onto_page bytes.now buf.old }
{
    let n = buf.len().min(bytes.len());
    buf[..n].copy_from_slice(&bytes[..n]);
    n
}
