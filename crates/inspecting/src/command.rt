// The command line of an inspection.
ghost use Rattle.std.specs.Prelude.{◌≤◌};

use crate::frame_files::inspect_files;
use plans::inspect_folder;
use system::{About, Given, given, tell};

const USAGE: &str = "inspect START.obj END.obj, or inspect [--refused FILE] [FOLDER]";

const HELP: &str = "\
usage: inspect START.obj END.obj
       inspect [FOLDER]
       inspect --refused FILE [FOLDER]

Inspects the step between two frames of one sheet: the same faces, as text, before and after the step. Or inspects the fold plan in a
folder, or in the current one:
  sheet.obj   the sheet, as text: a line `v X Y Z` for each point, `f A B C` for each face; points count from 1 there, or back from -1
  step.bin    the record of its step: how far each point moves (the program `record` makes it from two frames)
  pairs.bin   the pairs of faces to inspect: two numbers of two bytes each, the lower byte first; faces count from 0
              (the program `near` finds them)

It prints, and counts points and faces from 0 there,
  step N points, N moved, N bytes           of two frames: the step between them
  the frames have N and N points, or so     of two frames: they are not of one sheet, which ends the run
  near N faces, N pairs                     of two frames: how many pairs of faces lie near each other; all of them are inspected
  fault NUMBER LAYER PLACE PLACE            for each pair that is refused, and what any other fault is, which ends the run
  VF POINT FACE FIRST LAST                  a point and a face that may touch, from part FIRST of the step to part LAST, of four; `- -` for none
  VF kept N struck N shared N repeated N    how many tests of a point against a face there were of each class
  EE U V K L FIRST LAST                     the edges from U to V and from K to L may touch
  EE kept N struck N shared N repeated N    how many tests of an edge against an edge there were of each class
  covered all pairs                         of two frames: no pair was refused
  refused N pairs                           of two frames: so many were
docs/RULES.md explains the faults by their numbers.
Of each pair that is not refused, what shares no point and is not printed stays apart for the whole step. After `covered all pairs` that
holds of every two faces of the sheet; after `refused N pairs` of every two but those pairs, which have a fault line each.
Of a refused pair nothing is said. Where a list was full (fault 21), make a folder with the first frame as sheet.obj, let `record` make
its step.bin and `near` its pairs.bin, and run `inspect --refused FOLDER/pairs.bin FOLDER` until it prints no fault line: each run
inspects the pairs that the one before refused. Where there are over a million near pairs (fault 25), inspect them in parts: write
pairs.bin yourself.

A sheet has at most 2,048 points, 4,096 faces and 65,536 bytes of text, with coordinates from -4096 to 4096.
Each list has 512 entries, and a million pairs are accepted. Tests are struck at depth 2, in the four parts of the step.

  --refused FILE   also stores the refused pairs in FILE, in the form of pairs.bin; a fault of the sheet or of the step leaves it as it was
  -h, --help       prints this
  --version        prints the number of the program
  --               ends the options

The exit status is 0 where all was inspected, pairs refused or not, and 1 after any other fault, where the frames differ or the
arguments are wrong, and where something stops the run, which is told on standard error by its name and the reason. A fault that ends
the run, how frames differ, and how many pairs were refused are told there in words, a fault with its file and line.
";

const ABOUT: About = About {
    version: "inspect 0.1.0\n",
    usage: USAGE,
    help: HELP,
    least: 0,
    most: 2,
    has_refused: true,
};

/// Does what the command line asks for: the exit status.
pub fn inspect_command(rt: &HostRuntime) -> u8
    ensures { result ≤ 1 }
{
    let Given { operands, refused } = match given(rt, &ABOUT) {
        Ok(given) => given,
        Err(status) => return status,
    };
    match (operands.first(), operands.get(1), refused) {
        (Some(start), Some(end), None) => inspect_files(rt, start.as_str(), end.as_str()),
        (Some(_), Some(_), Some(_)) => {
            tell(rt, "usage", USAGE);
            1
        }
        (folder, _, refused) => {
            let folder = folder.map_or(".", |folder| folder.as_str());
            inspect_folder(rt, folder, refused)
        }
    }
}
