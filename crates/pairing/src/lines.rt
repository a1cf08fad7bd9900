// The line that tells how many pairs there are.
ghost use Rattle.std.specs.Prelude.{◌≡◌};
ghost use Rattle.pairing.specs.Pairings.{pairs_line};

use arrayvec::ArrayString;
use itoa::Buffer;

/// The longest line: its words, two numbers of twenty digits and a line feed.
pub(crate) type Line = ArrayString<60>;

/// The line that tells how many faces a sheet has, and how many near pairs.
pub(crate) fn pairs_line(faces: usize, pairs: usize) -> Line
    ensures { result.bytes ≡ pairs_line faces pairs }
{
    let mut digits = Buffer::new();
    let mut line = ArrayString::new();
    line.push_str("near ");
    line.push_str(digits.format(faces));
    line.push_str(" faces, ");
    line.push_str(digits.format(pairs));
    line.push_str(" pairs\n");
    line
}
