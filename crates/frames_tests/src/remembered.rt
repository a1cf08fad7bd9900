// Two frames in memory.
use frames::{FrameFile, Recording, Tables, record_frames};
use sheet::{Layer, Notice};

#[test]
fn the_record_and_the_line_stand_in_front(rt: HostRuntime) {
    let mut tables = Tables::new();
    let mut bytes = [7u8; 6];
    let mut line = [7u8; 40];
    let recorded = record_frames(
        &mut tables,
        b"v 1 1 1\nv 2 2 2\n",
        b"v 1 1 -1\nv 2 2 2\n",
        &mut bytes,
        &mut line,
    );
    assert!(rt; recorded.answer == Recording::Recorded);
    assert!(rt; recorded.record_len == 4);
    assert!(rt; bytes.as_slice() == b"\x04\xfe\xff\x00\x07\x07".as_slice());
    assert!(rt; recorded.line_len == 32);
    assert!(rt;
        line.as_slice()
            == b"step 2 points, 1 moved, 4 bytes\n\x07\x07\x07\x07\x07\x07\x07\x07".as_slice()
    );
}

#[test]
fn a_fault_stands_as_far_as_there_is_room(rt: HostRuntime) {
    let mut tables = Tables::new();
    let mut bytes = [7u8; 2];
    let mut line = [7u8; 7];
    let recorded = record_frames(&mut tables, b"", b"x", &mut bytes, &mut line);
    let fault = Notice::new(2, Layer::Line, 1, 0);
    assert!(rt; recorded.answer == Recording::Faulty(FrameFile::End, fault));
    assert!(rt; recorded.record_len == 0);
    assert!(rt; bytes.as_slice() == b"\x07\x07".as_slice());
    assert!(rt; recorded.line_len == 17);
    assert!(rt; line.as_slice() == b"fault 2".as_slice());
}
