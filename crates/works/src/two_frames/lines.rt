// The last line.
ghost use Rattle.std.specs.Prelude.{◌≡◌, ◌++◌, codes};
ghost use Rattle.works.specs.two_frames.Lines.{last_line};

use arrayvec::ArrayString;
use itoa::Buffer;

/// The line that tells whether all pairs were inspected, or how many were refused.
pub(crate) fn last_line(refused: usize) -> ArrayString<40>
    ensures { result.bytes ≡ last_line refused ++ codes "\n" }
{
    let mut line = ArrayString::new();
    if refused == 0 {
        line.push_str("covered all pairs\n");
        return line;
    }
    let mut digits = Buffer::new();
    line.push_str("refused ");
    line.push_str(digits.format(refused));
    line.push_str(" pairs\n");
    line
}
