// Telling what ends a run early.
ghost use Rattle.hosts.specs.Writing.{Writes, printing};
ghost use Rattle.std.specs.Prelude.{◌≡◌};
ghost use Rattle.frames.specs.Outcomes.{with_line_feed, no_step_line};
ghost use Rattle.plan.specs.Notices.{notice_line};
ghost use Rattle.works.specs.two_frames.Works.{without_step};
ghost use Rattle.works.specs.declared.two_frames.endings.FramesEnding.TheVariants.{Unsearched};

use crate::two_frames::endings::FramesEnding;
use frames::{NoStep, print_no_step};
use hosts::{Host, tell};
use plan::notice_line;
use sheet::Notice;

/// Prints why there is no step.
#[tactic(auto, using(hosts::proofs::Printing::printed_and, hosts::proofs::Printing::not_printed))]
pub(crate) fn tell_no_step<H: Host>(why: NoStep, host: &mut H) -> Result<FramesEnding, H::Error>
    ensures { let text = with_line_feed (no_step_line why) in
        Writes H.does H.fails (printing text) (without_step why) host.old result host.new }
{
    print_no_step(why, host)?;
    Ok(without_step(why))
}

fn without_step(why: NoStep) -> FramesEnding
    ensures { result ≡ without_step why }
{
    match why {
        NoStep::Faulty(file, notice) => FramesEnding::Faulty(file, notice),
        NoStep::Different(difference) => FramesEnding::Different(difference),
    }
}

/// Prints the fault of the search.
pub(crate) fn tell_unsearched<H: Host>(
    notice: Notice,
    host: &mut H,
) -> Result<FramesEnding, H::Error>
    ensures { Writes H.does H.fails (printing (notice_line notice)) (Unsearched notice)
        host.old result host.new }
{
    tell(
        notice_line(notice).as_str(),
        FramesEnding::Unsearched(notice),
        host,
    )
}
