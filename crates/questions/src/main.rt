//! Asks about each entry of an inspection, and prints the answers.
#![tactic(auto)]

mod asking;

use asking::ask_about_list;
use filters::DELIVERED;
use inspection::{Inspection, Lists, Marked};
use plan::pair_offerings;
use sheet::{FACE_LIMIT, Face, Notice, POINT_LIMIT, Point, read_sheet};
use std::alloc::AllocError;
use std::process::ExitCode;
use std::{fs, io};
use step::lay;
use system::{About, Given, given, tell};
use telling::{tell_fault, tell_refused};

/// The most entries of a list.
const ENTRIES: usize = 512;

/// The step is asked about in four parts.
const DEPTH: u8 = 2;

const HELP: &str = "\
usage: questions [FOLDER]

Inspects the fold plan in a folder, or in the current one, as `inspect` does, and prints for each test on its lists
  VF POINT FACE window FIRST LAST earliest PART put N
  EE U V K L window FIRST LAST earliest PART put N
The test may touch from part FIRST of the step to part LAST, of four, counted from 0. PART is the first of them, found by
putting part by part to the filter from the front, and N is how many were put. A dash stands for none.

What has a fault gets the line that `inspect` prints for it.

  -h, --help   prints this
  --version    prints the number of the program
  --           ends the options

The exit status is 0, and 1 after a fault of the sheet or of the step, where the arguments are wrong, and where something
stops the run, which is told on standard error. A fault that ends the run, with its file and line, and how many pairs were refused
are told there in words.
";

const ABOUT: About = About {
    version: "questions 0.1.0\n",
    usage: "questions [FOLDER]",
    help: HELP,
    least: 0,
    most: 1,
    has_refused: false,
};

fn main(rt: HostRuntime) -> ExitCode {
    ExitCode::from(questions_command(&rt))
}

/// Does what the command line asks for: the exit status.
fn questions_command(rt: &HostRuntime) -> u8 {
    match given(rt, &ABOUT) {
        Ok(
            Given {
                operands,
                refused: _,
            },
        ) => {
            let folder = operands.first().map_or(".", |folder| folder.as_str());
            match ask_in_folder(rt, folder) {
                Ok(status) => status,
                Err(stop) => {
                    stop.told(rt);
                    1
                }
            }
        }
        Err(status) => status,
    }
}

/// What stops the program.
#[derive(Drop)]
enum Stop {
    /// A file cannot be read.
    File(String, io::Error),
    Output(io::Error),
    Memory(AllocError),
}

impl Stop {
    /// Tells it, by name and reason.
    fn told(self, rt: &HostRuntime) {
        match self {
            Stop::File(path, reason) => tell(rt, path.as_str(), reason),
            Stop::Output(reason) => tell(rt, "standard output", reason),
            Stop::Memory(reason) => tell(rt, "memory", io::Error::from(reason)),
        }
    }
}

/// Asks about the plan in a folder: the exit status.
fn ask_in_folder(rt: &HostRuntime, folder: &str) -> Result<u8, Stop> {
    let text = read(rt, folder, "sheet.obj")?;
    let mut points = vec![in rt.alloc(); Point::default(); POINT_LIMIT as usize].map_err(
        Stop::Memory,
    )?;
    let mut faces = vec![in rt.alloc(); Face::default(); FACE_LIMIT as usize].map_err(
        Stop::Memory,
    )?;
    let draft = match read_sheet(&text, &mut points, &mut faces) {
        Ok(draft) => draft,
        Err(fault) => return refuse(rt, folder, "sheet.obj", fault.notice()),
    };
    let step = read(rt, folder, "step.bin")?;
    if let Err(fault) = lay(&draft, &step, &mut points) {
        return refuse(rt, folder, "step.bin", fault.notice());
    }
    let mut vf_table = [Marked::default(); ENTRIES];
    let mut ee_table = [Marked::default(); ENTRIES];
    let mut lists = Lists::new(&mut vf_table, &mut ee_table);
    let mut inspection = match Inspection::open(draft, DELIVERED, DEPTH, &mut lists) {
        Ok(inspection) => inspection,
        Err(refused) => return refuse(rt, folder, "sheet.obj", refused.fault.notice()),
    };
    let pairs = read(rt, folder, "pairs.bin")?;
    let mut refused = 0u64;
    for what in pair_offerings(&pairs) {
        if let Err(fault) = inspection.offer(&points, &faces, &mut lists, what) {
            println!(rt; "{}", fault.notice()).map_err(Stop::Output)?;
            refused = refused.saturating_add(1);
        }
    }
    ask_about_list(rt, &inspection, &points, &faces, &lists.vf).map_err(Stop::Output)?;
    ask_about_list(rt, &inspection, &points, &faces, &lists.ee).map_err(Stop::Output)?;
    let path = path_of(rt, folder, "pairs.bin")?;
    tell_refused(rt, path.as_str(), refused, "");
    Ok(0)
}

fn read(rt: &HostRuntime, folder: &str, name: &str) -> Result<Vec<u8>, Stop> {
    let path = path_of(rt, folder, name)?;
    match fs::read(rt, path.as_str()) {
        Ok(bytes) => Ok(bytes),
        Err(reason) => Err(Stop::File(path, reason)),
    }
}

fn path_of(rt: &HostRuntime, folder: &str, name: &str) -> Result<String, Stop> {
    format!(in rt.alloc(); "{folder}/{name}").map_err(Stop::Memory)
}

/// Tells a fault of a file that ends the run: the exit status.
fn refuse(rt: &HostRuntime, folder: &str, name: &str, notice: Notice) -> Result<u8, Stop> {
    println!(rt; "{notice}").map_err(Stop::Output)?;
    let path = path_of(rt, folder, name)?;
    tell_fault(rt, path.as_str(), notice);
    Ok(1)
}
