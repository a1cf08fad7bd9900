// The record of the step between two frames.
ghost use Rattle.std.specs.Prelude.{◌≡◌, ◌≤◌, length, take};
ghost use Rattle.hosts.specs.Writing.{Writes, printing, writes_of};
ghost use Rattle.sheet.specs.Sheet.{point_limit};
ghost use Rattle.step.specs.Limit.{record_limit};
ghost use Rattle.step.specs.Record.{record_of};
ghost use Rattle.frames.specs.Outcomes.{recorded, with_line_feed, no_step_line, unrecorded};
ghost use Rattle.frames.specs.Works.{Records};

use crate::frame_files::{FrameFile, NoStep, Recording};
use crate::reading::read_frames;
use crate::tables::Tables;
use crate::telling::{print_no_step, print_step};
use hosts::Host;
use sheet::{Draft, Point};
use step::write;

/// Reads two frames and records the step between them: stores its record, and prints the line that
/// tells it. Where a frame has a fault, or they differ, it prints the line that tells this instead.
#[tactic(auto, using(crate::proofs::Runs::unread, crate::proofs::Runs::told, crate::proofs::Runs::stored))]
pub fn record_step<H: Host<File = FrameFile>>(
    tables: &mut Tables,
    host: &mut H,
) -> Result<Recording, H::Error>
    ensures { Records H.does H.fails host.old result host.new }
{
    match read_frames(tables, host)? {
        Ok(draft) => record_rows(&draft, &tables.points, &mut tables.record, host),
        Err(why) => tell_no_step(why, host),
    }
}

/// Prints why there is no step.
#[tactic(auto, using(hosts::proofs::Printing::printed_and, hosts::proofs::Printing::not_printed))]
fn tell_no_step<H: Host>(why: NoStep, host: &mut H) -> Result<Recording, H::Error>
    ensures { let text = with_line_feed (no_step_line why) in
        Writes H.does H.fails (printing text) (unrecorded why) host.old result host.new }
{
    print_no_step(why, host)?;
    Ok(unrecorded(why))
}

fn unrecorded(why: NoStep) -> Recording
    ensures { result ≡ unrecorded why }
{
    match why {
        NoStep::Faulty(file, notice) => Recording::Faulty(file, notice),
        NoStep::Different(difference) => Recording::Different(difference),
    }
}

/// Stores the record of the draft's points, and then tells it.
fn record_rows<H: Host>(
    draft: &Draft,
    points: &[Point],
    buffer: &mut [u8],
    host: &mut H,
) -> Result<Recording, H::Error>
    requires all { draft.now.points ≤ length points.now }
    requires few { length points.now ≤ point_limit }
    requires room { length buffer.old ≡ record_limit }
    ensures { let o = recorded (take draft.now.points points.now) in
        Writes H.does H.fails (writes_of o) o.answer host.old result host.new }
{
    host.store(record_in(draft, points, buffer))?;
    print_step(draft, points, host)?;
    Ok(Recording::Recorded)
}

/// The record of the draft's points, written into the buffer.
#[tactic(auto, using(std::proofs::lemmas::Grind::common_steps, step::proofs::LongestRecord::rows_most))]
fn record_in<'a>(draft: &Draft, points: &[Point], buffer: &'a mut [u8]) -> &'a [u8]
    requires all { draft.now.points ≤ length points.now }
    requires few { length points.now ≤ point_limit }
    requires room { length buffer.old ≡ record_limit }
    ensures { result.now ≡ record_of (take draft.now.points points.now) }
{
    let Ok(len) = write(draft, points, buffer) else {
        unreachable!()
    };
    &buffer[..len]
}
