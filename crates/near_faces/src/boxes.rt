// Boxes with sides along the axes, as faces sweep them.
ghost use Rattle.std.specs.Prelude.{◌≡◌, []};
ghost use Rattle.std.specs.Int.{int_min, int_max};
ghost use Rattle.inspection.specs.Sheets.{moving_of, sheet_of};
ghost use Rattle.near_faces.specs.Boxes.{at_most, least_of, greatest_of, joined, meets};
ghost use Rattle.near_faces.specs.inner.Swept.{swept_if_inside, swept_by};

use sheet::{Coords, Face, Point};

/// From the least to the greatest coordinates, both included, in units of the sheet.
#[derive(Clone, Copy, Debug, Default, PartialEq, Eq)]
pub struct SweptBox {
    pub least: Coords,
    pub greatest: Coords,
}

impl SweptBox {
    /// What a face takes up over the whole step, all coordinates as they count; nothing where it
    /// names a point that there is not.
    pub(crate) fn of_face(points: &[Point], face: Face) -> Option<SweptBox>
        ensures { result ≡ swept_if_inside (sheet_of points.now []) face }
    {
        let a = SweptBox::of_point(*points.get(face.a as usize)?);
        let b = SweptBox::of_point(*points.get(face.b as usize)?);
        let c = SweptBox::of_point(*points.get(face.c as usize)?);
        Some(a.join(b.join(c)))
    }

    fn of_point(point: Point) -> SweptBox
        ensures { result ≡ swept_by (moving_of point) }
    {
        let start = point.start.counted();
        let end = point.end.counted();
        SweptBox {
            least: least_of(start, end),
            greatest: greatest_of(start, end),
        }
    }

    /// Whether the boxes overlap or touch on all three axes.
    pub(crate) fn meets(self, other: SweptBox) -> bool
        ensures { result ≡ meets self other }
    {
        is_at_most(self.least, other.greatest) && is_at_most(other.least, self.greatest)
    }

    /// The least box around both.
    pub fn join(self, other: SweptBox) -> SweptBox
        ensures { result ≡ joined self other }
    {
        SweptBox {
            least: least_of(self.least, other.least),
            greatest: greatest_of(self.greatest, other.greatest),
        }
    }
}

/// Whether no coordinate is greater than the other's on that axis.
pub(crate) fn is_at_most(a: Coords, b: Coords) -> bool
    ensures { result ≡ at_most a b }
{
    (a.x <= b.x) & (a.y <= b.y) & (a.z <= b.z)
}

/// The lesser coordinate on each axis.
fn least_of(a: Coords, b: Coords) -> Coords
    ensures { result ≡ least_of a b }
{
    Coords {
        x: lesser(a.x, b.x),
        y: lesser(a.y, b.y),
        z: lesser(a.z, b.z),
    }
}

/// The greater coordinate on each axis.
fn greatest_of(a: Coords, b: Coords) -> Coords
    ensures { result ≡ greatest_of a b }
{
    Coords {
        x: greater(a.x, b.x),
        y: greater(a.y, b.y),
        z: greater(a.z, b.z),
    }
}

fn lesser(a: i16, b: i16) -> i16
    ensures { result ≡ int_min a b }
{
    a.min(b)
}

fn greater(a: i16, b: i16) -> i16
    ensures { result ≡ int_max a b }
{
    a.max(b)
}
