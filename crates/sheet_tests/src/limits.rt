// Texts and tables at their limits, and one past them.
use crate::tables::{MARKED_FACE, MARKED_POINT};
use sheet::{Coords, FACE_LIMIT, Layer, Notice, POINT_LIMIT, TEXT_LIMIT, read_sheet};
use std::alloc::{AllocError, Global};
use std::process::Abort;
use std::test::Fail;

/// `front`, and then `line` so many times.
fn repeated(heap: Global, front: &str, line: &str, times: u16) -> Result<String, AllocError> {
    let mut text = String::from_str(heap, front)?;
    for _ in 0..times {
        text.push_str(line)?;
    }
    Ok(text)
}

/// Reads `text` into tables of so many places, and checks the counts or the fault.
fn reads(
    rt: &impl Abort,
    heap: Global,
    text: &[u8],
    places: (usize, usize),
    told: Result<(u16, u16), Notice>,
) -> Result<(), Fail> {
    let mut points = vec![in heap; MARKED_POINT; places.0]?;
    let mut faces = vec![in heap; MARKED_FACE; places.1]?;
    match (
        read_sheet(text, points.as_mut_slice(), faces.as_mut_slice()),
        told,
    ) {
        (Ok(draft), Ok(counts)) => {
            assert_eq!(rt; draft.points(), counts.0);
            assert_eq!(rt; draft.faces(), counts.1);
            Ok(())
        }
        (Err(fault), Err(notice)) => {
            assert_eq!(rt; fault.notice(), notice);
            for point in points.iter() {
                assert_eq!(rt; *point, MARKED_POINT);
            }
            for face in faces.iter() {
                assert_eq!(rt; *face, MARKED_FACE);
            }
            Ok(())
        }
        (Ok(_), Err(_)) => Err(Fail::new("the text is accepted")),
        (Err(_), Ok(_)) => Err(Fail::new("the text is refused")),
    }
}

fn no_place(line: u32) -> Notice {
    Notice {
        number: 7,
        layer: Layer::Sheet,
        first: line,
        second: 0,
    }
}

#[test]
fn bytes_of_a_text(rt: HostRuntime) -> Result<(), Fail> {
    let heap = rt.alloc();
    let long = Notice {
        number: 6,
        layer: Layer::Sheet,
        first: 0,
        second: 0,
    };
    let most = vec![in heap; b'#'; TEXT_LIMIT]?;
    let over = vec![in heap; b'x'; TEXT_LIMIT + 1]?;
    let feeds = vec![in heap; b'\n'; TEXT_LIMIT]?;
    reads(&rt, heap, most.as_slice(), (0, 0), Ok((0, 0)))?;
    reads(&rt, heap, feeds.as_slice(), (0, 0), Ok((0, 0)))?;
    reads(&rt, heap, over.as_slice(), (0, 0), Err(long))?;
    let mut last_line = feeds;
    last_line.truncate(TEXT_LIMIT - 1);
    last_line.push(b'v')?;
    let no_start = Notice {
        number: 2,
        layer: Layer::Line,
        first: 65536,
        second: 0,
    };
    reads(&rt, heap, last_line.as_slice(), (0, 0), Err(no_start))
}

#[test]
fn points_of_a_sheet(rt: HostRuntime) -> Result<(), Fail> {
    let heap = rt.alloc();
    let most = repeated(heap, "", "v 0 0 0\n", POINT_LIMIT)?;
    let over = repeated(heap, "", "v 0 0 0\n", POINT_LIMIT + 1)?;
    reads(&rt, heap, most.as_bytes(), (2048, 0), Ok((2048, 0)))?;
    reads(&rt, heap, most.as_bytes(), (2047, 0), Err(no_place(2048)))?;
    reads(&rt, heap, over.as_bytes(), (3000, 0), Err(no_place(2049)))
}

#[test]
fn faces_of_a_sheet(rt: HostRuntime) -> Result<(), Fail> {
    let heap = rt.alloc();
    let corners = "v 0 0 0\nv 1 0 0\nv 0 1 0\n";
    let most = repeated(heap, corners, "f 1 2 3\n", FACE_LIMIT)?;
    let over = repeated(heap, corners, "f 1 2 3\n", FACE_LIMIT + 1)?;
    reads(&rt, heap, most.as_bytes(), (3, 4096), Ok((3, 4096)))?;
    reads(&rt, heap, most.as_bytes(), (3, 4095), Err(no_place(4099)))?;
    reads(&rt, heap, over.as_bytes(), (3, 5000), Err(no_place(4100)))
}

#[test]
fn coordinates_count_to_their_bounds(rt: HostRuntime) {
    let past = Coords {
        x: 4097,
        y: -4097,
        z: 32767,
    };
    let within = Coords {
        x: 4096,
        y: -4096,
        z: -1,
    };
    assert_eq!(rt;
        past.counted(),
        Coords {
            x: 4096,
            y: -4096,
            z: 4096,
        }
    );
    assert_eq!(rt;
        Coords {
            x: -32768,
            y: 0,
            z: 4095,
        }
        .counted(),
        Coords {
            x: -4096,
            y: 0,
            z: 4095,
        }
    );
    assert_eq!(rt; within.counted(), within);
}
