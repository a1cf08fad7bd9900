// The lines that tell what comes of two frames.
ghost use Rattle.std.specs.Prelude.{◌≡◌, ◌≤◌, length, take};
ghost use Rattle.frames.specs.Lines.{counts_line, difference_line};
ghost use Rattle.frames.specs.Outcomes.{line_of_step};

use crate::comparing::{Difference, moving};
use arrayvec::ArrayString;
use itoa::Buffer;
use sheet::{Draft, Point};
use step::record_len;

/// The longest line: its words, and three numbers of twenty digits.
pub(crate) type Line = ArrayString<88>;

/// The line that tells how two frames differ.
pub(crate) fn difference_line(difference: Difference) -> Line
    ensures { result.bytes ≡ difference_line difference }
{
    match difference {
        Difference::Points(a, b) => counts_line(a, b, " points"),
        Difference::Faces(a, b) => counts_line(a, b, " faces"),
        Difference::Face(i) => {
            let mut digits = Buffer::new();
            let mut line = ArrayString::new();
            line.push_str("the frames differ in face ");
            line.push_str(digits.format(i));
            line
        }
    }
}

/// The line that tells two counts of things of which the frames have not as many.
fn counts_line(start: u16, end: u16, things: &str) -> Line
    requires { length things.now ≤ 7 }
    ensures { result.bytes ≡ counts_line start end things.now }
{
    let mut digits = Buffer::new();
    let mut line = ArrayString::new();
    line.push_str("the frames have ");
    line.push_str(digits.format(start));
    line.push_str(" and ");
    line.push_str(digits.format(end));
    line.push_str(things);
    line
}

/// The line that tells a step, whose points are the draft's: how many there are, how many of them
/// move, and the length of its record.
pub(crate) fn step_line(draft: &Draft, points: &[Point]) -> Line
    ensures { result.bytes ≡ line_of_step (take draft.now.points points.now) }
{
    let count = points.len().min(draft.points() as usize);
    let mut digits = Buffer::new();
    let mut line = ArrayString::new();
    line.push_str("step ");
    line.push_str(digits.format(count));
    line.push_str(" points, ");
    line.push_str(digits.format(moving(draft, points)));
    line.push_str(" moved, ");
    line.push_str(digits.format(record_len(draft, points)));
    line.push_str(" bytes");
    line
}
