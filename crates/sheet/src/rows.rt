// Rows of the caller's tables.
ghost use Rattle.std.specs.Prelude.{◌≡◌, IsTrue};
ghost use Rattle.sheet.specs.Counted.{coordinate_of, counted, in_range};

/// A coordinate lies from −4,096 to 4,096.
pub const COORDINATE_BOUND: i16 = 4096;

/// A sheet has at most 2,048 points.
pub const POINT_LIMIT: u16 = 2048;

/// A sheet has at most 4,096 faces.
pub const FACE_LIMIT: u16 = 4096;

#[repr(C)]
#[derive(Clone, Copy, Debug, Default, PartialEq, Eq)]
pub struct Coords {
    pub x: i16,
    pub y: i16,
    pub z: i16,
}

/// A point of the film at the start and at the end of the step.
#[repr(C)]
#[derive(Clone, Copy, Debug, Default, PartialEq, Eq)]
pub struct Point {
    pub start: Coords,
    pub end: Coords,
}

/// A triangle, by the numbers of its corners, from 0.
#[repr(C)]
#[derive(Clone, Copy, Debug, Default, PartialEq, Eq)]
pub struct Face {
    pub a: u16,
    pub b: u16,
    pub c: u16,
}

impl Coords {
    /// The coordinates as they count: a number past a bound counts as that bound.
    pub fn counted(self) -> Coords
        ensures { result ≡ counted self }
    {
        let x = coordinate_of(self.x);
        let y = coordinate_of(self.y);
        let z = coordinate_of(self.z);
        Coords { x, y, z }
    }
}

/// A coordinate as it counts.
pub fn coordinate_of(value: i16) -> i16
    ensures value { result ≡ coordinate_of value }
    ensures within { IsTrue (in_range result) }
{
    if value < -COORDINATE_BOUND {
        return -COORDINATE_BOUND;
    }
    if value > COORDINATE_BOUND {
        return COORDINATE_BOUND;
    }
    value
}
