//! An example for those who let several people go through the lists at once: two reviewers, and a
//! triangle that sinks through another.
#![tactic(auto)]

mod desk;
mod lines;

use desk::Desk;
use filters::DELIVERED;
use inspection::{Handed, Inspection, Lists, Marked, Offering, Slip};
use lines::{Act, Done};
use motion::Kind;
use sheet::{Face, Point, read_sheet};
use std::io;
use step::lay;

/// A face that rests, and one of which two corners sink through it and the third beyond its edge.
const SHEET: &[u8] = b"v 0 0 0\nv 8 0 0\nv 0 8 0\nv 1 1 1\nv 2 1 1\nv 6 6 1\nf 1 2 3\nf 4 5 6\n";

/// Three points sink by 2.
const STEP: &[u8] = b"\0\0\0\x04\xfe\xff\x04\xfe\xff\x04\xfe\xff";

fn main(rt: HostRuntime) -> io::Result<()> {
    let (printed, last) = review(&rt);
    // the lists are gone, and a slip may have outlived them
    let Some(slip) = last else {
        return printed;
    };
    let (list, entry, reviewer) = slip.read();
    slip.void();
    printed?;
    let voided = Done {
        reviewer,
        act: Act::Voids,
        list,
        entry,
        fault: None,
    };
    println!(rt; "{voided}")
}

/// An inspection of the plan, through whose lists both go: what came of printing, and the slip that
/// is still out.
fn review(rt: &HostRuntime) -> (io::Result<()>, Option<Slip>) {
    let mut points = [Point::default(); 6];
    let mut faces = [Face::default(); 2];
    let Ok(draft) = read_sheet(SHEET, &mut points, &mut faces) else {
        return (println!(rt; "no sheet"), None);
    };
    let Ok(()) = lay(&draft, STEP, &mut points) else {
        return (println!(rt; "no step"), None);
    };
    let mut vf_table = [Marked::default(); 6];
    let mut ee_table = [Marked::default(); 9];
    let mut lists = Lists::new(&mut vf_table, &mut ee_table);
    let Ok(mut inspection) = Inspection::open(draft, DELIVERED, 2, &mut lists) else {
        return (println!(rt; "not opened"), None);
    };
    let offered = inspection.offer(&points, &faces, &mut lists, Offering::Faces(0, 1));
    let Ok(()) = offered else {
        return (println!(rt; "not accepted"), None);
    };
    let mut desk = Desk::new(rt, lists);
    let last = go_through(&mut desk);
    desk.tell_standings(Kind::Vf);
    desk.tell_standings(Kind::Ee);
    let _closed = inspection.close();
    desk.tell_out();
    (desk.printed(), last)
}

/// Both go through both lists: the second reviewer's slip of the last entry.
fn go_through(desk: &mut Desk<'_, '_>) -> Option<Slip> {
    for entry in 0..desk.entries(Kind::Vf) {
        if let Some(slip) = desk.pass_on(Kind::Vf, entry) {
            desk.hand_in(slip, Handed::Seen);
        }
    }
    let mut last = None;
    for entry in 0..desk.entries(Kind::Ee) {
        if let Some(slip) = last {
            desk.hand_in(slip, Handed::Seen);
        }
        last = desk.pass_on(Kind::Ee, entry);
    }
    last
}
