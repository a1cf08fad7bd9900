// The sentence of each fault, and of refused pairs.
use crate::saying::{says, says_counts_differ, says_face_differs, says_refused};
use std::test::Fail;

#[test]
fn faults_of_a_text(rt: HostRuntime) -> Result<(), Fail> {
    assert!(rt;
        says(
            1,
            (6, 2),
            b"v 0 x 0",
            "The second field, “x”, is not a whole number of at most five digits."
        )
    );
    assert!(rt; says(1, (6, 3), b"v 0 0", "The third field is missing."));
    assert!(rt; says(1, (6, 1), b"f ", "The first field is missing."));
    assert!(rt;
        says(
            1,
            (6, 1),
            b"",
            "The first field is not a whole number of at most five digits."
        )
    );
    assert!(rt;
        says(
            2,
            (6, 0),
            b"x",
            "The line is neither a point (“v ”) nor a face (“f ”), nor is it empty or a comment."
        )
    );
    assert!(rt;
        says(
            3,
            (6, 1),
            b"v 5000 0 0",
            "The first field, “5000”, is a coordinate outside −4,096 to 4,096."
        )
    );
    assert!(rt;
        says(
            3,
            (6, 1),
            b"",
            "The first field is a coordinate outside −4,096 to 4,096."
        )
    );
    assert!(rt;
        says(
            4,
            (6, 3),
            b"f 1 2 9",
            "The third field, “9”, names no point above the line."
        )
    );
    assert!(rt;
        says(
            5,
            (6, 2),
            b"f 1 -3 2",
            "The second field, “-3”, names a point that an earlier field of the line names."
        )
    );
    assert!(rt;
        says(
            6,
            (0, 0),
            b"",
            "The text has more than 65,536 bytes, which is the most that a sheet has."
        )
    );
    assert!(rt;
        says(
            7,
            (6, 0),
            b"v 0 0 0",
            "There is no room for this point: a sheet has at most 2,048."
        )
    );
    assert!(rt;
        says(
            7,
            (6, 0),
            b"f 1 2 3",
            "There is no room for this face: a sheet has at most 4,096."
        )
    );
    Ok(())
}

#[test]
fn faults_of_a_record(rt: HostRuntime) -> Result<(), Fail> {
    assert!(rt;
        says(
            8,
            (1, 0),
            b"",
            "The record of the step ends early: the map of point 1 is not there."
        )
    );
    assert!(rt;
        says(
            8,
            (1, 2),
            b"",
            "The record of the step ends early: the move of point 1 in y is not there."
        )
    );
    assert!(rt;
        says(
            9,
            (12, 0),
            b"",
            "The map of point 12 in the record of the step is over 7."
        )
    );
    assert!(rt;
        says(
            10,
            (2047, 3),
            b"",
            "The record of the step has a move of zero for point 2047 in z."
        )
    );
    assert!(rt;
        says(
            11,
            (2, 1),
            b"",
            "Point 2 ends outside −4,096 to 4,096 in x."
        )
    );
    assert!(rt;
        says(
            12,
            (0, 0),
            b"",
            "The record of the step goes on after its last point: bytes are left over."
        )
    );
    Ok(())
}

#[test]
fn faults_of_an_offer_and_a_search(rt: HostRuntime) -> Result<(), Fail> {
    assert!(rt; says(17, (99, 0), b"", "The sheet has no face 99."));
    assert!(rt; says(18, (1, 0), b"", "Both faces of the pair are face 1."));
    assert!(rt; says(19, (4, 0), b"", "Face 4 names a point that is not there."));
    assert!(rt; says(20, (0, 0), b"", "A million offers were accepted already."));
    assert!(rt;
        says(
            21,
            (0, 0),
            b"",
            "A list had too little room left: each has room for 512 tests."
        )
    );
    assert!(rt; says(25, (0, 0), b"", "There are more than 1,000,000 near pairs."));
    for number in [13, 14, 16, 23, 24] {
        assert!(rt; says(number, (0, 0), b"", "A table is too short."));
    }
    for number in [0, 15, 22, 26, 27, 28, 99] {
        assert!(rt; says(number, (0, 0), b"", ""));
    }
    Ok(())
}

#[test]
fn refused_pairs(rt: HostRuntime) -> Result<(), Fail> {
    assert!(rt; says_refused(1, "1 pair was refused. Of it nothing is said."));
    assert!(rt; says_refused(3, "3 pairs were refused. Of them nothing is said."));
    assert!(rt; says_refused(999, "999 pairs were refused. Of them nothing is said."));
    assert!(rt; says_refused(1200, "1,200 pairs were refused. Of them nothing is said."));
    assert!(rt;
        says_refused(
            1000000,
            "1,000,000 pairs were refused. Of them nothing is said."
        )
    );
    Ok(())
}

#[test]
fn frames_that_differ(rt: HostRuntime) -> Result<(), Fail> {
    assert!(rt;
        says_counts_differ(
            36,
            35,
            "points",
            "These are no frames of one sheet: the first has 36 points, the second 35."
        )
    );
    assert!(rt;
        says_face_differs(
            49,
            "These are no frames of one sheet: face 49, counted from 0, is another one."
        )
    );
    Ok(())
}
