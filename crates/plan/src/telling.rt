// The line of a fault.
ghost use Rattle.std.specs.Prelude.{◌≡◌};
ghost use Rattle.hosts.specs.Writing.{printing, Writes};
ghost use Rattle.plan.specs.Notices.{notice_line};
ghost use Rattle.plan.specs.declared.endings.Ending.TheVariants.{Faulty};

use crate::endings::Ending;
use arrayvec::ArrayString;
use hosts::{Host, tell};
use sheet::Notice;

/// A fault's line, with its line feed.
pub fn notice_line(notice: Notice) -> ArrayString<40>
    ensures { result.bytes ≡ notice_line notice }
{
    let mut line = ArrayString::new();
    line.push_str(notice.line().as_str());
    line.push_str("\n");
    line
}

/// Prints the line of a fault that ends the work.
pub fn tell_fault<H: Host>(notice: Notice, host: &mut H) -> Result<Ending, H::Error>
    ensures { Writes H.does H.fails (printing (notice_line notice)) (Faulty notice)
        host.old result host.new }
{
    tell(notice_line(notice).as_str(), Ending::Faulty(notice), host)
}
