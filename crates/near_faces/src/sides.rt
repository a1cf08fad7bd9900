// The sides of boxes, each in a table of its own.
ghost use Rattle.std.specs.Prelude.{◌≡◌, ◌+◌, ◌<◌, ◌≤◌, [], ◌∷◌, ◌++◌, length, map};
ghost use Rattle.std.specs.List.{count_by};
ghost use Rattle.near_faces.specs.Boxes.{meets};
ghost use Rattle.near_faces.specs.inner.Sides.{least_at, greatest_at, box_in, boxes_in};

use crate::boxes::{SweptBox, is_at_most};
use sheet::{Coords, FACE_LIMIT};

const ROWS: usize = FACE_LIMIT as usize;

/// The sides of the faces' boxes. As each has a table of its own, a processor compares many at once.
#[derive(Drop)]
pub(crate) struct Sides {
    least_x: [i16; ROWS],
    least_y: [i16; ROWS],
    least_z: [i16; ROWS],
    greatest_x: [i16; ROWS],
    greatest_y: [i16; ROWS],
    greatest_z: [i16; ROWS],
}

impl Sides {
    /// The sides of these boxes in the first rows.
    pub(crate) fn of(boxes: &[SweptBox]) -> Sides
        requires { length boxes.now ≤ 4096 }
        ensures { boxes_in result 0 (length boxes.now) ≡ boxes.now }
    {
        let zeros = [0; ROWS];
        let mut sides = Sides {
            least_x: zeros,
            least_y: zeros,
            least_z: zeros,
            greatest_x: zeros,
            greatest_y: zeros,
            greatest_z: zeros,
        };
        for i in 0..boxes.len() {
            sides.write(i, boxes[i]);
        }
        sides
    }

    /// Writes a box's sides into a row, and leaves the rows before it as they are.
    fn write(&mut self, row: usize, swept: SweptBox)
        requires { row < 4096 }
        ensures { boxes_in self.new 0 (row + 1) ≡ boxes_in self.old 0 row ++ swept ∷ [] }
    {
        self.least_x[row] = swept.least.x;
        self.least_y[row] = swept.least.y;
        self.least_z[row] = swept.least.z;
        self.greatest_x[row] = swept.greatest.x;
        self.greatest_y[row] = swept.greatest.y;
        self.greatest_z[row] = swept.greatest.z;
    }

    /// The box whose sides stand in this row.
    pub(crate) fn swept(&self, row: usize) -> SweptBox
        requires { row < 4096 }
        ensures { result ≡ box_in self.now row }
    {
        SweptBox {
            least: self.least(row),
            greatest: self.greatest(row),
        }
    }

    /// Marks which boxes of a run meet this one, and answers how many do. The loop has no branches,
    /// so that the compiler makes it test many boxes at once.
    pub(crate) fn mark(&self, first: usize, swept: SweptBox, marks: &mut [bool]) -> usize
        requires rows { first + length marks.old ≤ 4096 }
        requires few { length marks.old ≤ 512 }
        ensures marks { marks.new ≡ map (meets swept) (boxes_in self.now first (length marks.old)) }
        ensures count { result ≡ count_by (meets swept) (boxes_in self.now first (length marks.old)) }
    {
        let mut count: u16 = 0;
        for k in 0..marks.len() {
            let meets = self.meets(first + k, swept);
            marks[k] = meets;
            count += u16::from(meets);
        }
        usize::from(count)
    }

    /// Whether a box meets the one whose sides stand in this row.
    fn meets(&self, row: usize, swept: SweptBox) -> bool
        requires { row < 4096 }
        ensures { result ≡ meets swept (box_in self.now row) }
    {
        is_at_most(swept.least, self.greatest(row)) & is_at_most(self.least(row), swept.greatest)
    }

    fn least(&self, row: usize) -> Coords
        requires { row < 4096 }
        ensures { result ≡ least_at self.now row }
    {
        Coords {
            x: self.least_x[row],
            y: self.least_y[row],
            z: self.least_z[row],
        }
    }

    fn greatest(&self, row: usize) -> Coords
        requires { row < 4096 }
        ensures { result ≡ greatest_at self.now row }
    {
        Coords {
            x: self.greatest_x[row],
            y: self.greatest_y[row],
            z: self.greatest_z[row],
        }
    }
}
