// near [FOLDER]: finds the pairs of faces to inspect in the fold plan in a folder.
#![tactic(auto)]

use pairings::pair_folder;
use std::process::ExitCode;
use system::{About, given};

const HELP: &str = "\
usage: near [FOLDER]

Finds the pairs of faces to inspect in the fold plan in a folder, or in the current one. It reads
  sheet.obj   the sheet, as text: a line `v X Y Z` for each point, `f A B C` for each face; points count from 1 there, or back from -1
  step.bin    the record of its step: how far each point moves (the program `record` makes it from two frames)
and stores there, for the program `inspect`,
  pairs.bin   the near pairs: each pair of faces whose boxes over the whole step overlap or touch

It prints
  near N faces, N pairs                how many faces the sheet has, and how many near pairs, which are stored
  fault NUMBER LAYER PLACE PLACE       the sheet, its step or the search has a fault, and nothing is stored
docs/RULES.md explains the faults by their numbers.
Where `inspect` refuses none of these pairs, what it says holds of every two faces of the sheet, near or far.

A sheet has at most 2,048 points, 4,096 faces and 65,536 bytes of text, with coordinates from -4096 to 4096.
There are places for a million pairs, since no inspection accepts more (fault 25).

  -h, --help   prints this
  --version    prints the number of the program
  --           ends the options

The exit status is 0 where the pairs are stored and their line is printed, and 1 after a fault, where the arguments are wrong, and
where something stops the run, which is told on standard error by its name and the reason. Then pairs.bin is as it was, unless
only the line could not be printed. A fault is told there in words too, with its file and line.
";

const ABOUT: About = About {
    version: "near 0.1.0\n",
    usage: "near [FOLDER]",
    help: HELP,
    least: 0,
    most: 1,
    has_refused: false,
};

fn main(rt: HostRuntime) -> ExitCode {
    ExitCode::from(near_command(&rt))
}

/// Does what the command line asks for: the exit status.
fn near_command(rt: &HostRuntime) -> u8 {
    match given(rt, &ABOUT) {
        Ok(given) => {
            let folder = given.operands.first().map_or(".", |word| word.as_str());
            pair_folder(rt, folder)
        }
        Err(status) => status,
    }
}
