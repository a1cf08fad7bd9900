// What is asked about an entry, and the line that tells the answers.
use filters::{Earliest, Filter};
use inspection::{EeName, Inspection, List, TestName, VfName};
use sheet::{Face, Point};
use std::fmt::Display;
use std::{fmt, io};

/// The name of a test, which is printed with the word for its kind.
pub(crate) trait Named: TestName {
    fn print(self, rt: &HostRuntime) -> io::Result<()>;
}

impl Named for VfName {
    fn print(self, rt: &HostRuntime) -> io::Result<()> {
        print!(rt; "VF {} {}", self.point, self.face)
    }
}

impl Named for EeName {
    fn print(self, rt: &HostRuntime) -> io::Result<()> {
        print!(rt; "EE {} {} {} {}", self.u, self.v, self.k, self.l)
    }
}

/// A part of the step, or a dash for none.
#[derive(Clone, Copy)]
struct Part {
    number: Option<u8>,
}

impl Display for Part {
    fn fmt<W: fmt::Write>(&self, f: &mut fmt::Formatter<W>) -> fmt::Result {
        match self.number {
            Some(number) => write!(f, "{number}"),
            None => write!(f, "-"),
        }
    }
}

/// Asks about each entry of a list, in its order.
pub(crate) fn ask_about_list<F: Filter, E: Named>(
    rt: &HostRuntime,
    inspection: &Inspection<F>,
    points: &[Point],
    faces: &[Face],
    list: &List<'_, E>,
) -> io::Result<()> {
    for (number, place) in (0..u32::MAX).zip(list.places().iter()) {
        let window = inspection.window(points, faces, list, number);
        let earliest = inspection.earliest(points, faces, list, number);
        match (window, earliest) {
            (Ok(window), Ok(earliest)) => {
                place.name.print(rt)?;
                print_answers(rt, window, earliest)?;
            }
            (Err(fault), _) | (_, Err(fault)) => println!(rt; "{}", fault.notice())?,
        }
    }
    Ok(())
}

fn print_answers(rt: &HostRuntime, window: Option<(u8, u8)>, earliest: Earliest) -> io::Result<()> {
    let first = Part {
        number: window.map(|(first, _)| first),
    };
    let last = Part {
        number: window.map(|(_, last)| last),
    };
    let part = Part {
        number: earliest.part,
    };
    println!(rt;
        " window {first} {last} earliest {part} put {}",
        earliest.put
    )
}
