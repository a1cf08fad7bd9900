// Tables of random rows, many past the bounds: each record reads back, and gives the same record again.
use crate::drafts::draft_of;
use sheet::{Coords, Draft, Point};
use std::process::Abort;
use std::test::Fail;
use step::{lay, write};

/// Numbers that look random, the same in every run.
#[derive(Drop)]
struct Random(u32);

impl Random {
    fn next(&mut self) -> u32 {
        self.0 = self.0.wrapping_mul(1664525).wrapping_add(1013904223);
        self.0 / 65536
    }

    /// A coordinate: often near a bound or past it, and often 0.
    fn coordinate(&mut self) -> i16 {
        match self.next() % 4 {
            0 => 0,
            1 => 4090 + (self.next() % 16) as i16,
            2 => -4090 - (self.next() % 16) as i16,
            _ => (self.next() % 8001) as i16 - 4000,
        }
    }

    fn coords(&mut self) -> Coords {
        let x = self.coordinate();
        let y = self.coordinate();
        let z = self.coordinate();
        Coords { x, y, z }
    }

    fn row(&mut self) -> Point {
        let start = self.coords();
        let end = if self.next() % 4 == 0 {
            start
        } else {
            self.coords()
        };
        Point { start, end }
    }
}

fn counted(row: Point) -> Point {
    Point {
        start: row.start,
        end: row.end.counted(),
    }
}

/// Writes the `i`th table, lays what was written, and writes again.
fn there_and_back(rt: &impl Abort, draft: &Draft, rows: [Point; 3], i: u16) {
    let mut table = rows;
    let mut first = [0u8; 21];
    let mut second = [0u8; 21];
    let Ok(len) = write(draft, &table, &mut first) else {
        panic!(rt; "table {i} is refused")
    };
    assert!(rt; len <= 21, "table {i}");
    let Ok(()) = lay(draft, &first[0..len], &mut table) else {
        panic!(rt; "the record of table {i} is refused")
    };
    for row in 0..3 {
        assert_eq!(rt; table[row], counted(rows[row]), "table {i}");
    }
    let Ok(again) = write(draft, &table, &mut second) else {
        panic!(rt; "the rows of table {i} are refused")
    };
    assert_eq!(rt; again, len, "table {i}");
    assert_eq!(rt; second, first, "table {i}");
}

#[test]
fn written_reads_back(rt: HostRuntime) -> Result<(), Fail> {
    let draft = draft_of(3)?;
    let mut random = Random(2026);
    for i in 0..2000u16 {
        let rows = [random.row(), random.row(), random.row()];
        there_and_back(&rt, &draft, rows, i);
    }
    Ok(())
}
