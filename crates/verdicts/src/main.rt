//! Strikes seeded pseudo-random tests with every filter at every depth, and prints how many each struck.
#![tactic(auto)]

mod draws;
mod samples;

use draws::{Draws, Sum};
use filters::{BoxFilter, DELIVERED, Filter, PlaneFilter, SlabFilter, Test, controls, struck_at};
use samples::{Family, sample};
use std::io;
use std::process::ExitCode;
use system::{About, given, tell};

const TESTS: u32 = 1000;

/// How many tests a filter struck at the depths 0 to 6.
#[derive(Clone, Copy)]
struct Counts {
    struck: [u32; 7],
}

/// The counts of the four filters.
#[derive(Drop)]
struct Tally {
    boxes: Counts,
    slabs: Counts,
    planes: Counts,
    rows: Counts,
}

const HELP: &str = "\
usage: verdicts

Strikes seven classes of 1,000 pseudo-random tests with each filter at each depth from 0 to 6, and prints
  CLASS FILTER N N N N N N N   how many tests of the family the filter struck, at each depth
  CLASS checksum N             a sum over all values and verdicts so far
docs/RULES.md has the classes, the numbers and the sum, so that another program can print the same.

  -h, --help   prints this
  --version    prints the number of the program
  --           ends the options

The exit status is 0, and 1 where the arguments are wrong and where something stops the run, which is told on standard
error by its name and the reason.
";

const ABOUT: About = About {
    version: "verdicts 0.1.0\n",
    usage: "verdicts",
    help: HELP,
    least: 0,
    most: 0,
    has_refused: false,
};

fn main(rt: HostRuntime) -> ExitCode {
    ExitCode::from(verdicts_command(&rt))
}

/// Does what the command line asks for: the exit status.
fn verdicts_command(rt: &HostRuntime) -> u8 {
    match given(rt, &ABOUT) {
        Ok(_) => {}
        Err(status) => return status,
    }
    match print_verdicts(rt) {
        Ok(()) => 0,
        Err(e) => {
            tell(rt, "standard output", e);
            1
        }
    }
}

fn print_verdicts(rt: &HostRuntime) -> io::Result<()> {
    let mut draws = Draws::new();
    let mut sum = Sum::new();
    for family in [
        Family::Uniform,
        Family::Grazing,
        Family::Coplanar,
        Family::Far,
        Family::Corners,
        Family::Equal,
        Family::Limits,
    ] {
        let tally = judge_class(family, &mut draws, &mut sum);
        print(rt, family.name(), &tally, &sum)?;
    }
    Ok(())
}

fn judge_class(family: Family, draws: &mut Draws, sum: &mut Sum) -> Tally {
    let none = Counts { struck: [0; 7] };
    let mut tally = Tally {
        boxes: none,
        slabs: none,
        planes: none,
        rows: none,
    };
    for i in 0..TESTS {
        if let Some(test) = Test::new(sample(family, i, draws)) {
            judge(&test, &mut tally, sum);
        }
    }
    tally
}

fn judge(test: &Test, tally: &mut Tally, sum: &mut Sum) {
    let g = controls(test);
    sum.take(g.g0.cast_unsigned());
    sum.take(g.g1.cast_unsigned());
    sum.take(g.g2.cast_unsigned());
    sum.take(g.g3.cast_unsigned());
    tally.boxes.ask(&BoxFilter, test, sum);
    tally.slabs.ask(&SlabFilter, test, sum);
    tally.planes.ask(&PlaneFilter, test, sum);
    tally.rows.ask(&DELIVERED, test, sum);
}

impl Counts {
    /// Asks a filter at the depths 0 to 6.
    fn ask<F: Filter>(&mut self, filter: &F, test: &Test, sum: &mut Sum) {
        for depth in 0..7u8 {
            let verdict = match struck_at(filter, test, depth) {
                Some(true) => 1u64,
                Some(false) => 0,
                None => 2,
            };
            if verdict == 1 {
                let i = depth as usize;
                self.struck[i] = self.struck[i].saturating_add(1);
            }
            sum.take(verdict);
        }
    }
}

fn print(rt: &HostRuntime, family: &str, tally: &Tally, sum: &Sum) -> io::Result<()> {
    print_counts(rt, family, "Box", tally.boxes)?;
    print_counts(rt, family, "Slab", tally.slabs)?;
    print_counts(rt, family, "Plane", tally.planes)?;
    print_counts(rt, family, "row", tally.rows)?;
    println!(rt; "{family} checksum {}", sum.value())
}

fn print_counts(rt: &HostRuntime, family: &str, filter: &str, counts: Counts) -> io::Result<()> {
    let [a, b, c, d, e, f, g] = counts.struck;
    println!(rt; "{family} {filter} {a} {b} {c} {d} {e} {f} {g}")
}
