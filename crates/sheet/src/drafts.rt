// A draft: a sheet that stands in the caller's tables and is not being inspected.
ghost use Rattle.std.specs.Prelude.{◌≡◌, ◌≤◌};

use std::marker::Model;

/// How many of the first rows of the caller's tables are a sheet's points and faces: at most 2,048
/// and 4,096.
///
/// There is one draft for each sheet that was read: it is neither copied nor made anew.
#[derive(Debug, Drop)]
pub struct Draft {
    points: u16,
    faces: u16,
    ghost few_points: { points ≤ 2048 },
    ghost few_faces: { faces ≤ 4096 },
}

impl Model for Draft {
    ghost use Rattle.sheet.specs.Drafts.{SheetCounts};

    ghost Value = { SheetCounts };

    ghost view = { λ d. record { points = d.points; faces = d.faces } };
}

impl Draft {
    pub(crate) fn new(points: u16, faces: u16) -> Draft
        requires points { points ≤ 2048 }
        requires faces { faces ≤ 4096 }
        ensures { result ≡ record { points = points; faces = faces } }
    {
        Draft { points, faces }
    }

    /// How many points the sheet has.
    pub fn points(&self) -> u16
        ensures count { result ≡ self.now.points }
        ensures few { result ≤ 2048 }
    {
        self.points
    }

    /// How many faces the sheet has.
    pub fn faces(&self) -> u16
        ensures count { result ≡ self.now.faces }
        ensures few { result ≤ 4096 }
    {
        self.faces
    }
}
