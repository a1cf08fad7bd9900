// Advice, and what a value looks like.
use crate::saying::says;
use std::test::Fail;

#[test]
fn on_a_field(rt: HostRuntime) -> Result<(), Fail> {
    assert!(rt;
        says(
            1,
            (5, 3),
            b"v 1 1 0.5",
            "The third field, “0.5”, is not a whole number of at most five digits. Coordinates are whole numbers: scale the sheet and round."
        )
    );
    assert!(rt;
        says(
            1,
            (5, 1),
            b"v -1e-5 1 1",
            "The first field, “-1e-5”, is not a whole number of at most five digits. Coordinates are whole numbers: scale the sheet and round."
        )
    );
    assert!(rt;
        says(
            1,
            (5, 3),
            b"v 0 0 0\r",
            "The third field, “0␍”, is not a whole number of at most five digits. The line ends with a carriage return: save the file with line feeds alone."
        )
    );
    assert!(rt;
        says(
            1,
            (5, 1),
            b"f 1/1 2/2 3/3",
            "The first field, “1/1”, is not a whole number of at most five digits. A face names its points and nothing else, as “f 1 2 3”."
        )
    );
    assert!(rt;
        says(
            1,
            (5, 3),
            b"v 0 0 0 0",
            "The third field, “0 0”, is not a whole number of at most five digits. A point or a face has three fields, with one space between two of them."
        )
    );
    assert!(rt;
        says(
            1,
            (5, 1),
            b"v three 0 0",
            "The first field, “three”, is not a whole number of at most five digits."
        )
    );
    Ok(())
}

#[test]
fn on_a_line(rt: HostRuntime) -> Result<(), Fail> {
    assert!(rt;
        says(
            2,
            (1, 0),
            "\u{feff}v 0 0 0".as_bytes(),
            "The line is neither a point (“v ”) nor a face (“f ”), nor is it empty or a comment. It begins with a byte order mark: save the file without one."
        )
    );
    assert!(rt;
        says(
            2,
            (1, 0),
            b" \r",
            "The line is neither a point (“v ”) nor a face (“f ”), nor is it empty or a comment. It has nothing but spaces or a carriage return."
        )
    );
    for line in [
        "vn 0 0 1",
        "o",
        "usemtl\tfilm",
        "mtllib film.mtl\r",
        "l 1 2",
    ] {
        assert!(rt;
            says(
                2,
                (1, 0),
                line.as_bytes(),
                "The line is neither a point (“v ”) nor a face (“f ”), nor is it empty or a comment. Export the points and faces alone, without normals, texture, groups or materials."
            )
        );
    }
    assert!(rt;
        says(
            2,
            (1, 0),
            b"volume 3",
            "The line is neither a point (“v ”) nor a face (“f ”), nor is it empty or a comment."
        )
    );
    Ok(())
}

#[test]
fn what_cannot_be_seen(rt: HostRuntime) -> Result<(), Fail> {
    assert!(rt;
        says(
            4,
            (1, 1),
            b"f 1\t\x1b\x7f 2 3",
            "The first field, “1␉␛␡”, names no point above the line."
        )
    );
    assert!(rt;
        says(
            4,
            (1, 1),
            b"f \xff\xe2\x88\x92\xc2\x9b 2 3",
            "The first field, “\u{fffd}−\u{fffd}”, names no point above the line."
        )
    );
    Ok(())
}

#[test]
fn a_long_value(rt: HostRuntime) -> Result<(), Fail> {
    assert!(rt;
        says(
            4,
            (1, 1),
            b"f 1234567890123456789012345678901234567890 2 3",
            "The first field, “1234567890123456789012345678901234567890”, names no point above the line."
        )
    );
    assert!(rt;
        says(
            4,
            (1, 1),
            b"f 12345678901234567890123456789012345678901 2 3",
            "The first field, “1234567890123456789012345678901234567890 ..”, names no point above the line."
        )
    );
    Ok(())
}
