// Texts with no fault: the rows that they write, and that the others are as they were.
use crate::tables::{Tables, check_marked, marked};
use sheet::{Coords, Face, Point, read_sheet};
use std::process::Abort;

/// The tables after `text`, which has so many points and faces.
fn read(rt: &impl Abort, text: &str, points: u16, faces: u16) -> Tables {
    let mut tables = marked();
    match read_sheet(text.as_bytes(), &mut tables.points, &mut tables.faces) {
        Ok(draft) => {
            assert_eq!(rt; draft.points(), points, "{text}");
            assert_eq!(rt; draft.faces(), faces, "{text}");
        }
        Err(_) => panic!(rt; "refused: {text}"),
    }
    check_marked(rt, &tables, points as usize, faces as usize, text);
    tables
}

fn resting(x: i16, y: i16, z: i16) -> Point {
    let at = Coords { x, y, z };
    Point { start: at, end: at }
}

#[test]
fn numbers(rt: HostRuntime) {
    let tables = read(&rt, "v 4096 -4096 0\nv -0 00001 -00020\nv 10 9 -8\n", 3, 0);
    assert_eq!(rt; tables.points[0], resting(4096, -4096, 0));
    assert_eq!(rt; tables.points[1], resting(0, 1, -20));
    assert_eq!(rt; tables.points[2], resting(10, 9, -8));
}

#[test]
fn faces_count_from_one(rt: HostRuntime) {
    let tables = read(
        &rt,
        "v 0 0 0\nv 1 0 0\nv 0 1 0\nf 3 1 2\nv 1 1 0\nf 4 00003 2\n",
        4,
        2,
    );
    assert_eq!(rt; tables.points[3], resting(1, 1, 0));
    assert_eq!(rt; tables.faces[0], Face { a: 2, b: 0, c: 1 });
    assert_eq!(rt; tables.faces[1], Face { a: 3, b: 2, c: 1 });
}

#[test]
fn faces_count_back(rt: HostRuntime) {
    let tables = read(
        &rt,
        "v 0 0 0\nv 1 0 0\nv 0 1 0\nf -3 -2 -1\nv 1 1 0\nf -4 3 -00001\n",
        4,
        2,
    );
    assert_eq!(rt; tables.faces[0], Face { a: 0, b: 1, c: 2 });
    assert_eq!(rt; tables.faces[1], Face { a: 0, b: 2, c: 3 });
}

#[test]
fn line_ends(rt: HostRuntime) {
    let texts = [
        "v 1 2 3",
        "v 1 2 3\n",
        "\n\nv 1 2 3\n\n",
        "# a sail\nv 1 2 3\n#",
        "#v 4 5 6\nv 1 2 3",
    ];
    for text in texts.iter() {
        let tables = read(&rt, text, 1, 0);
        assert_eq!(rt; tables.points[0], resting(1, 2, 3), "{text}");
    }
    read(&rt, "", 0, 0);
    read(&rt, "\n", 0, 0);
    read(&rt, "#", 0, 0);
}
