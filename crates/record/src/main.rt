// record START.obj END.obj STEP.bin: makes the record of the step between two frames of one sheet.
#![tactic(auto)]

use recordings::{Paths, record_frames};
use std::process::ExitCode;
use system::{About, given};

const HELP: &str = "\
usage: record START.obj END.obj STEP.bin

Makes the record of the step between two frames of one sheet, START.obj and END.obj, and stores it in STEP.bin, for the
program `inspect`. The frames have the same faces; each point ends where the second frame has it. A frame is a text:
a line `v X Y Z` for each point, `f A B C` for each face; points count from 1 there, or back from -1.

It prints
  step N points, N moved, N bytes      the record is stored
  fault NUMBER LAYER PLACE PLACE       a frame has a fault; which frame is told on standard error
  the frames have N and N points       the frames are not of one sheet; so too for their faces
  the frames differ in face N          the first face that is another one, counted from 0
and in the last three cases stores nothing. docs/RULES.md explains the faults by their numbers.

A frame has at most 2,048 points, 4,096 faces and 65,536 bytes of text, with coordinates from -4096 to 4096.

  -h, --help   prints this
  --version    prints the number of the program
  --           ends the options

The exit status is 0 where the record is stored and its line printed, and 1 where not, where the arguments are wrong, and where something
stops the run, which is told on standard error by its name and the reason. Then STEP.bin is as it was, unless only the line
could not be printed. A fault, with its file and line, and how the frames differ are told there in words too.
";

const ABOUT: About = About {
    version: "record 0.1.0\n",
    usage: "record START.obj END.obj STEP.bin",
    help: HELP,
    least: 3,
    most: 3,
    has_refused: false,
};

fn main(rt: HostRuntime) -> ExitCode {
    ExitCode::from(record_command(&rt))
}

/// Does what the command line asks for: the exit status.
fn record_command(rt: &HostRuntime) -> u8 {
    let given = match given(rt, &ABOUT) {
        Ok(given) => given,
        Err(status) => return status,
    };
    let mut operands = given.operands.into_iter();
    let (Some(start), Some(end), Some(step)) = (operands.next(), operands.next(), operands.next())
    else {
        return 1;
    };
    record_frames(rt, Paths { start, end, step })
}
