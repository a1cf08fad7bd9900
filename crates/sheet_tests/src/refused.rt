// Texts with a fault: the line that tells it, and that both tables are as they were.
use crate::tables::{check_marked, marked};
use sheet::read_sheet;
use std::alloc::{AllocError, Global};
use std::process::Abort;

const CASES: [(&str, &str); 86] = [
    ("v x 1 1", "fault 1 field 1 1"),
    ("v 1 x 1", "fault 1 field 1 2"),
    ("v 1 1 x", "fault 1 field 1 3"),
    ("f x 1 2", "fault 1 field 1 1"),
    ("v 0 0 0\nv 1 0 0\nf 1 x 2", "fault 1 field 3 2"),
    ("v 0 0 0\nv 1 0 0\nf 1 2 x", "fault 1 field 3 3"),
    ("v 1 2", "fault 1 field 1 3"),
    ("v 1", "fault 1 field 1 2"),
    ("v ", "fault 1 field 1 1"),
    ("v  1 2 3", "fault 1 field 1 1"),
    ("v 1 2 3 ", "fault 1 field 1 3"),
    ("v 1 2 3 4", "fault 1 field 1 3"),
    ("v 1 2 3\r", "fault 1 field 1 3"),
    ("v 1\t2 3 4", "fault 1 field 1 1"),
    ("v - 1 1", "fault 1 field 1 1"),
    ("v --1 1 1", "fault 1 field 1 1"),
    ("v +1 1 1", "fault 1 field 1 1"),
    ("v 1- 1 1", "fault 1 field 1 1"),
    ("v 000001 1 1", "fault 1 field 1 1"),
    ("v -123456 1 1", "fault 1 field 1 1"),
    ("v 1.5 1 1", "fault 1 field 1 1"),
    ("v / 1 1", "fault 1 field 1 1"),
    ("v : 1 1", "fault 1 field 1 1"),
    ("g 1 2 3", "fault 2 line 1 0"),
    ("v", "fault 2 line 1 0"),
    ("f", "fault 2 line 1 0"),
    ("v\t1 2 3", "fault 2 line 1 0"),
    ("\r", "fault 2 line 1 0"),
    ("   ", "fault 2 line 1 0"),
    (" v 1 2 3", "fault 2 line 1 0"),
    ("vn 0 0 1", "fault 2 line 1 0"),
    ("V 1 2 3", "fault 2 line 1 0"),
    (" # note", "fault 2 line 1 0"),
    ("f1 2 3", "fault 2 line 1 0"),
    ("#\n\n\r\n", "fault 2 line 3 0"),
    ("v 4097 0 0", "fault 3 line 1 1"),
    ("v 0 4097 0", "fault 3 line 1 2"),
    ("v 0 0 4097", "fault 3 line 1 3"),
    ("v -4097 0 0", "fault 3 line 1 1"),
    ("v 0 -4097 0", "fault 3 line 1 2"),
    ("v 0 0 -4097", "fault 3 line 1 3"),
    ("v 99999 0 0", "fault 3 line 1 1"),
    ("v -99999 0 0", "fault 3 line 1 1"),
    ("f 1 2 3", "fault 4 line 1 1"),
    ("v 0 0 0\nv 1 0 0\nf 0 1 2", "fault 4 line 3 1"),
    ("v 0 0 0\nv 1 0 0\nf 1 0 2", "fault 4 line 3 2"),
    ("v 0 0 0\nv 1 0 0\nf 1 2 0", "fault 4 line 3 3"),
    ("v 0 0 0\nv 1 0 0\nf 3 1 2", "fault 4 line 3 1"),
    ("v 0 0 0\nv 1 0 0\nf 1 3 2", "fault 4 line 3 2"),
    ("v 0 0 0\nv 1 0 0\nf 1 2 3", "fault 4 line 3 3"),
    ("f -1 -2 -3", "fault 4 line 1 1"),
    ("v 0 0 0\nv 1 0 0\nf -0 1 2", "fault 4 line 3 1"),
    ("v 0 0 0\nv 1 0 0\nf 1 -0 2", "fault 4 line 3 2"),
    ("v 0 0 0\nv 1 0 0\nf 1 2 -00000", "fault 4 line 3 3"),
    ("v 0 0 0\nv 1 0 0\nf -3 1 2", "fault 4 line 3 1"),
    ("v 0 0 0\nv 1 0 0\nf -2 -3 1", "fault 4 line 3 2"),
    ("v 0 0 0\nv 1 0 0\nf -1 -2 -3", "fault 4 line 3 3"),
    ("v 0 0 0\nv 1 0 0\nf -99999 1 2", "fault 4 line 3 1"),
    ("v 0 0 0\nv 1 0 0\nf 1 2 -3\nv 0 1 0", "fault 4 line 3 3"),
    ("v 0 0 0\nv 1 0 0\nf 99999 1 2", "fault 4 line 3 1"),
    ("v 0 0 0\nv 1 0 0\nf 1 2 3\nv 0 1 0", "fault 4 line 3 3"),
    ("v 0 0 0\nv 1 0 0\nf 1 1 2", "fault 5 line 3 2"),
    ("v 0 0 0\nv 1 0 0\nf 1 2 1", "fault 5 line 3 3"),
    ("v 0 0 0\nv 1 0 0\nf 1 2 2", "fault 5 line 3 3"),
    ("v 0 0 0\nv 1 0 0\nf 1 00001 2", "fault 5 line 3 2"),
    ("v 0 0 0\nv 1 0 0\nf -1 1 2", "fault 5 line 3 3"),
    ("v 0 0 0\nv 1 0 0\nf -1 -1 1", "fault 5 line 3 2"),
    ("v 0 0 0\nv 1 0 0\nf 1 2 -00001", "fault 5 line 3 3"),
    ("v 0 0 0\nv 1 0 0\nv 0 1 0\nf 1 -3 2", "fault 5 line 4 2"),
    ("v 0 0 0\nv 1 0 0\nv 0 1 0\nf -3 1 2", "fault 5 line 4 2"),
    ("v 0 0 0\nv 1 0 0\nv 0 1 0\nf 2 3 -2", "fault 5 line 4 3"),
    ("v 0 0 0\nv 1 0 0\nv 0 1 0\nf -1 1 -1", "fault 5 line 4 3"),
    ("v 0 0 0\nv 1 0 0\nv 0 1 0\nf 1 -1 3", "fault 5 line 4 3"),
    ("v 0 0 0\nv 1 0 0\nf - 1 2", "fault 1 field 3 1"),
    ("v 0 0 0\nv 1 0 0\nf 1 --1 2", "fault 1 field 3 2"),
    ("v 0 0 0\nv 1 0 0\nf -2 -1 -000001", "fault 1 field 3 3"),
    ("v 9999 x 1", "fault 3 line 1 1"),
    ("v 0 0 0\nf 1 1 x", "fault 5 line 2 2"),
    ("v 0 0 0\nv 1 0 0\nf 9 9 1", "fault 4 line 3 1"),
    ("v 1 1\ng", "fault 1 field 1 3"),
    ("g\nv 1 1", "fault 2 line 1 0"),
    (
        "v 0 0 0\nv 1 0 0\nv 0 1 0\nv 1 1 0\nv 2 2 0\n",
        "fault 7 sheet 5 0",
    ),
    (
        "v 0 0 0\nv 1 0 0\nv 0 1 0\nf 1 2 3\nf 1 2 3\n\nf 1 3 2\n",
        "fault 7 sheet 7 0",
    ),
    (
        "v 0 0 0\nv 1 0 0\nv 0 1 0\nv 1 1 0\nv 2 2 x\n",
        "fault 1 field 5 3",
    ),
    (
        "v 0 0 0\nv 1 0 0\nv 0 1 0\nv 1 1 0\nv 2 2 9999\n",
        "fault 3 line 5 3",
    ),
    (
        "v 0 0 0\nv 1 0 0\nv 0 1 0\nf 1 2 3\nf 1 2 3\nf 1 3 3\n",
        "fault 5 line 6 3",
    ),
];

#[test]
fn faults_are_told_and_tables_kept(rt: HostRuntime) -> Result<(), AllocError> {
    for (text, told) in CASES.iter() {
        refuses(&rt, rt.alloc(), text, told)?;
    }
    Ok(())
}

fn refuses(rt: &impl Abort, heap: Global, text: &str, told: &str) -> Result<(), AllocError> {
    let mut tables = marked();
    match read_sheet(text.as_bytes(), &mut tables.points, &mut tables.faces) {
        Ok(_) => panic!(rt; "accepted: {text}"),
        Err(fault) => {
            let notice = fault.notice();
            assert_eq!(rt; notice.line().as_str(), told, "{text}");
            assert_eq!(rt; notice.to_string(heap)?.as_str(), told, "{text}");
        }
    }
    check_marked(rt, &tables, 0, 0, text);
    Ok(())
}
