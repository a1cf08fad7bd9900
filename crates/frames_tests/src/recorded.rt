// What comes of two texts, where all calls go well.
use crate::failing::{Failure, TestHost};
use frames::{Difference, FrameFile, Recording, Tables, record_step};
use sheet::{Layer, Notice};
use std::alloc::Global;
use std::test::Fail;

const SHEET: &[u8] = b"v 0 0 0\nv 4 0 0\nv 0 4 0\nv 1 1 1\nv 1 1 9\nv 2 1 9\nf 1 2 3\nf 4 5 6\n";

/// A corner of the second face sinks through the first.
const SUNK: &[u8] = b"v 0 0 0\nv 4 0 0\nv 0 4 0\nv 1 1 -1\nv 1 1 9\nv 2 1 9\nf 1 2 3\nf 4 5 6\n";

/// Where a call fails after so many that go well, these calls were made, by their letters, these
/// bytes were stored and printed, and this answered.
pub(crate) fn comes(
    alloc: Global,
    start: &[u8],
    end: &[u8],
    well: usize,
    letters: &[u8],
    stored: &[u8],
    printed: &[u8],
    answer: Result<Recording, Failure>,
) -> Result<(), Fail> {
    let mut tables = Tables::new();
    let mut host = TestHost::new(alloc, start, end, well);
    let came = record_step(&mut tables, &mut host);
    if came != answer {
        return Err(Fail::new("another answer"));
    }
    if host.log.letters.as_slice() != letters {
        return Err(Fail::new("other calls"));
    }
    if host.stored.as_slice() != stored {
        return Err(Fail::new("another record"));
    }
    if host.printed.as_slice() != printed {
        return Err(Fail::new("another line"));
    }
    Ok(())
}

/// Where all calls go well, these were made, these bytes were stored and printed, and this answered.
fn ends(
    alloc: Global,
    start: &[u8],
    end: &[u8],
    letters: &[u8],
    stored: &[u8],
    printed: &[u8],
    answer: Recording,
) -> Result<(), Fail> {
    comes(alloc, start, end, 9, letters, stored, printed, Ok(answer))
}

#[test]
fn a_step_is_stored_and_then_told(rt: HostRuntime) -> Result<(), Fail> {
    ends(
        rt.alloc(),
        SHEET,
        SUNK,
        b"SEsp",
        b"\x00\x00\x00\x04\xfe\xff\x00\x00",
        b"step 6 points, 1 moved, 8 bytes\n",
        Recording::Recorded,
    )
}

#[test]
fn one_frame_may_count_back(rt: HostRuntime) -> Result<(), Fail> {
    let back = b"v 0 0 0\nv 4 0 0\nv 0 4 0\nf -3 2 -1\nv 1 1 -1\nv 1 1 9\nv 2 1 9\nf -3 -2 -1\n";
    ends(
        rt.alloc(),
        SHEET,
        back.as_slice(),
        b"SEsp",
        b"\x00\x00\x00\x04\xfe\xff\x00\x00",
        b"step 6 points, 1 moved, 8 bytes\n",
        Recording::Recorded,
    )
}

#[test]
fn frames_differ_in_the_points_meant(rt: HostRuntime) -> Result<(), Fail> {
    let above = b"v 0 0 0\nv 4 0 0\nv 0 4 0\nf -3 -2 -1\nv 1 1 1\n";
    let below = b"v 0 0 0\nv 4 0 0\nv 0 4 0\nv 1 1 1\nf -3 -2 -1\n";
    ends(
        rt.alloc(),
        above.as_slice(),
        below.as_slice(),
        b"SEp",
        b"",
        b"the frames differ in face 0\n",
        Recording::Different(Difference::Face(0)),
    )
}

#[test]
fn a_faulty_first_frame_needs_no_second(rt: HostRuntime) -> Result<(), Fail> {
    ends(
        rt.alloc(),
        b"v 1 2",
        SUNK,
        b"Sp",
        b"",
        b"fault 1 field 1 3\n",
        Recording::Faulty(FrameFile::Start, Notice::new(1, Layer::Field, 1, 3)),
    )
}

#[test]
fn a_faulty_second_frame_is_told(rt: HostRuntime) -> Result<(), Fail> {
    ends(
        rt.alloc(),
        SHEET,
        b"v 0 0 0\nv 4 0 0\nf 1 1 2\n",
        b"SEp",
        b"",
        b"fault 5 line 3 2\n",
        Recording::Faulty(FrameFile::End, Notice::new(5, Layer::Line, 3, 2)),
    )
}

#[test]
fn differences_are_told(rt: HostRuntime) -> Result<(), Fail> {
    let corners = b"v 0 0 0\nv 4 0 0\nv 0 4 0\n";
    let face = b"v 0 0 0\nv 4 0 0\nv 0 4 0\nf 1 2 3\n";
    let turned = b"v 0 0 0\nv 4 0 0\nv 0 4 0\nf 1 3 2\n";
    for (start, end, line, difference) in [
        (
            SHEET,
            face.as_slice(),
            b"the frames have 6 and 3 points\n".as_slice(),
            Difference::Points(6, 3),
        ),
        (
            corners.as_slice(),
            face.as_slice(),
            b"the frames have 0 and 1 faces\n".as_slice(),
            Difference::Faces(0, 1),
        ),
        (
            face.as_slice(),
            turned.as_slice(),
            b"the frames differ in face 0\n".as_slice(),
            Difference::Face(0),
        ),
    ] {
        ends(
            rt.alloc(),
            start,
            end,
            b"SEp",
            b"",
            line,
            Recording::Different(difference),
        )?;
    }
    Ok(())
}

#[test]
fn the_longest_text_is_read(rt: HostRuntime) -> Result<(), Fail> {
    let text = vec![in rt.alloc(); b'#'; 65536]?;
    ends(
        rt.alloc(),
        text.as_slice(),
        b"",
        b"SEsp",
        b"",
        b"step 0 points, 0 moved, 0 bytes\n",
        Recording::Recorded,
    )
}

#[test]
fn a_text_with_one_byte_more_is_too_long(rt: HostRuntime) -> Result<(), Fail> {
    let text = vec![in rt.alloc(); b'#'; 65537]?;
    ends(
        rt.alloc(),
        text.as_slice(),
        b"",
        b"Sp",
        b"",
        b"fault 6 sheet 0 0\n",
        Recording::Faulty(FrameFile::Start, Notice::new(6, Layer::Sheet, 0, 0)),
    )
}
