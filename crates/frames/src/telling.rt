// Telling what comes of two frames.
ghost use Rattle.std.specs.Prelude.{◌≡◌, ◌≤◌, length, take};
ghost use Rattle.hosts.specs.Writing.{Prints};
ghost use Rattle.frames.specs.Outcomes.{with_line_feed, no_step_line, line_of_step};

use crate::frame_files::NoStep;
use crate::lines::{difference_line, step_line};
use arrayvec::ArrayString;
use hosts::Host;
use sheet::{Draft, Point};

/// Prints the line that tells a step, whose points are the draft's.
pub fn print_step<H: Host>(draft: &Draft, points: &[Point], host: &mut H) -> Result<(), H::Error>
    ensures { let text = with_line_feed (line_of_step (take draft.now.points points.now)) in
        Prints H.does H.fails text host.old result host.new }
{
    print_line(step_line(draft, points).as_str(), host)
}

/// Prints the line that tells why there is no step.
pub fn print_no_step<H: Host>(why: NoStep, host: &mut H) -> Result<(), H::Error>
    ensures { let text = with_line_feed (no_step_line why) in
        Prints H.does H.fails text host.old result host.new }
{
    match why {
        NoStep::Faulty(_, notice) => print_line(notice.line().as_str(), host),
        NoStep::Different(difference) => print_line(difference_line(difference).as_str(), host),
    }
}

/// Prints a line.
#[tactic(auto, using(hosts::proofs::Printing::printed_at_once))]
fn print_line<H: Host>(line: &str, host: &mut H) -> Result<(), H::Error>
    requires { length line.now ≤ 88 }
    ensures { Prints H.does H.fails (with_line_feed line.now) host.old result host.new }
{
    host.print(with_line_feed(line).as_str().as_bytes())
}

fn with_line_feed(line: &str) -> ArrayString<89>
    requires { length line.now ≤ 88 }
    ensures { result.bytes ≡ with_line_feed line.now }
{
    let mut text = ArrayString::new();
    text.push_str(line);
    text.push_str("\n");
    text
}
