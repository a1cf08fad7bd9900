//! An example for those who make a filter of their own: it shows two laws about its set, and then
//! goes where ours go.
#![tactic(auto)]

ghost use Rattle.std.specs.Prelude.{◌≡◌, ◌+◌, Some, None, if◌then◌else◌, nat_le};
ghost use Rattle.motion.specs.Depths.{struck_at};
ghost use Rattle.example_filter.specs.Words.{verdict_word};

mod by_hand;
mod lent;
mod stacked;

use by_hand::inspect_by_hand;
use filters::{Filter, Row, Test, delivered_filter, struck_at};
use inspection::{Lists, Marked};
use lent::Lent;
use motion::{Moving, Shape, V3};
use sheet::{Coords, Face, Point, read_sheet};
use stacked::Stacked;
use std::io;

fn main(rt: HostRuntime) -> io::Result<()> {
    tell(
        &rt,
        "below the face and rising, yet never through it",
        point(-9, -1),
    )?;
    tell(
        &rt,
        "above the face and sinking, yet never through it",
        point(9, 1),
    )?;
    tell(&rt, "rising through the face", point(-1, 1))?;
    inspect(&rt)
}

/// An inspection of two faces, a corner of one of which sinks through the other, with our row behind
/// the filter of this crate.
fn inspect(rt: &HostRuntime) -> io::Result<()> {
    let text = b"v 0 0 0\nv 4 0 0\nv 0 4 0\nv 1 1 1\nv 1 1 9\nv 2 1 9\nf 1 2 3\nf 4 5 6\n";
    let mut points = [Point::default(); 6];
    let mut faces = [Face::default(); 2];
    let Ok(draft) = read_sheet(text, &mut points, &mut faces) else {
        return println!(rt; "no sheet");
    };
    points[3].end = Coords { x: 1, y: 1, z: -1 };
    let filter = Row {
        first: Stacked,
        second: delivered_filter(),
    };
    let mut vf_table = [Marked::default(); 6];
    let mut ee_table = [Marked::default(); 9];
    let mut lists = Lists::new(&mut vf_table, &mut ee_table);
    match inspect_by_hand(draft, filter, &points, &faces, &mut lists, 0, 1) {
        Some(counts) => println!(rt;
            "a corner sinks through: {} VF and {} EE tests are listed",
            counts.vf.kept, counts.ee.kept
        ),
        None => println!(rt; "refused"),
    }
}

/// A point that goes from one height to another over the middle of a resting face.
fn point(from: i64, to: i64) -> Shape {
    let p = Moving {
        start: V3 {
            x: 1,
            y: 1,
            z: from,
        },
        end: V3 { x: 1, y: 1, z: to },
    };
    Shape::vf(p, resting(0, 0), resting(4, 0), resting(0, 4), 0)
}

fn resting(x: i64, y: i64) -> Moving {
    let v = V3 { x, y, z: 0 };
    Moving { start: v, end: v }
}

/// What our row, the filter of this crate, and both in a row answer at depth 2.
fn tell(rt: &HostRuntime, what: &str, shape: Shape) -> io::Result<()> {
    let Some(test) = Test::new(shape) else {
        return println!(rt; "{what}: no test");
    };
    let ours = delivered_filter();
    let both = Row {
        first: Stacked,
        second: Lent { filter: &ours },
    };
    let delivered = verdict(&ours, &test);
    let own = verdict(&Stacked, &test);
    let row = verdict(&both, &test);
    println!(rt; "{what}: delivered {delivered}, own {own}, both {row}")
}

/// What the filter answers of the test at depth 2, in a word.
fn verdict<F: Filter>(filter: &F, test: &Test) -> &'static str
    ensures { let t = test.now.shape in
        let struck = struck_at (F.Filter.struck filter.now) 2 t in
        result.now ≡ verdict_word (if nat_le (t.scale + 2) 6 then Some struck else None) }
{
    match struck_at(filter, test, 2) {
        Some(true) => "struck",
        Some(false) => "passed",
        None => "not asked",
    }
}
