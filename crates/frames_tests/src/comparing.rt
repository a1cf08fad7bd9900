// How two frames differ, and how many points move.
use frames::{Difference, compare_frames, end_at, moving};
use sheet::{Coords, Draft, Face, Point, read_sheet};
use std::process::Abort;
use std::test::Fail;

const NO_FACE: Face = Face { a: 9, b: 9, c: 9 };

fn at(x: i16, y: i16, z: i16) -> Coords {
    Coords { x, y, z }
}

fn read(text: &str, faces: &mut [Face]) -> Result<Draft, Fail> {
    let row = Point {
        start: at(0, 0, 0),
        end: at(0, 0, 0),
    };
    match read_sheet(text.as_bytes(), &mut [row; 4], faces) {
        Ok(draft) => Ok(draft),
        Err(_) => Err(Fail::new("the frame is refused")),
    }
}

fn compare(start: &str, end: &str) -> Result<Option<Difference>, Fail> {
    let mut ours = [NO_FACE; 2];
    let mut theirs = [NO_FACE; 3];
    let start = read(start, &mut ours)?;
    let end = read(end, &mut theirs)?;
    Ok(compare_frames(&start, &ours, &end, &theirs))
}

/// The second frame differs so from a first one with three points and two faces.
fn differs(rt: &impl Abort, end: &str, difference: Option<Difference>) -> Result<(), Fail> {
    let start = "v 0 0 0\nv 1 0 0\nv 0 1 0\nf 1 2 3\nf 1 3 2\n";
    assert_eq!(rt; compare(start, end)?, difference, "{end}");
    Ok(())
}

#[test]
fn first_difference(rt: HostRuntime) -> Result<(), Fail> {
    differs(&rt, "v 0 0 9\nv 1 0 9\nv 0 1 9\nf 1 2 3\nf 1 3 2\n", None)?;
    differs(&rt, "v 0 0 0\nv 1 0 0\n", Some(Difference::Points(3, 2)))?;
    differs(
        &rt,
        "v 0 0 0\nv 1 0 0\nv 0 1 0\nf 1 2 3\n",
        Some(Difference::Faces(2, 1)),
    )?;
    differs(
        &rt,
        "v 0 0 0\nv 1 0 0\nv 0 1 0\nf 1 2 3\nf 1 2 3\n",
        Some(Difference::Face(1)),
    )?;
    differs(
        &rt,
        "v 0 0 0\nv 1 0 0\nv 0 1 0\nf 3 2 1\nf 1 2 3\n",
        Some(Difference::Face(0)),
    )
}

/// So many of the draft's points move.
fn expect_moving(rt: &impl Abort, draft: &Draft, points: &[Point], count: usize) {
    assert_eq!(rt; moving(draft, points), count);
}

#[test]
fn ends_and_moves(rt: HostRuntime) -> Result<(), Fail> {
    let a = Point {
        start: at(1, 1, 1),
        end: at(0, 0, 0),
    };
    let b = Point {
        start: at(1, 1, 2),
        end: at(5, 5, 5),
    };
    let c = Point {
        start: at(5000, 0, 0),
        end: at(4096, 0, 0),
    };
    let one = read("v 0 0 0\n", &mut [])?;
    let three = read("v 0 0 0\nv 0 0 0\nv 0 0 0\n", &mut [])?;
    let mut points = [a, b, c];
    expect_moving(&rt, &three, &points, 2);
    expect_moving(&rt, &one, &points, 1);
    end_at(&mut points, &[b, b]);
    let ended = [
        Point {
            start: a.start,
            end: b.start,
        },
        Point {
            start: b.start,
            end: b.start,
        },
        c,
    ];
    assert_eq!(rt; points, ended);
    expect_moving(&rt, &three, &ended, 1);
    expect_moving(&rt, &three, &ended[0..1], 1);
    Ok(())
}
