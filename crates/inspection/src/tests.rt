// The tests that names stand for.
ghost use Rattle.std.specs.Prelude.{◌≡◌, refl};
ghost use Rattle.motion.specs.Laws.{InReach};
ghost use Rattle.inspection.specs.Sheets.{Sheet, sheet_of_rows};
ghost use Rattle.inspection.specs.Tests.{Naming, corners_below, vf_naming, ee_naming};

use crate::entries::Entry;
use crate::names::{EeName, VfName};
use crate::sheets::Rows;
use filters::Test;
use motion::{Kind, Moving, Shape};
use sheet::Face;

/// An entry that names a test of a sheet.
pub trait TestName: Entry {
    // what such names mean
    ghost naming: { Naming Self };

    /// Whether its numbers are of the sheet.
    fn is_inside(self, rows: Rows<'_>) -> bool
        ensures { result ≡ naming.inside (sheet_of_rows rows.entry) self };

    /// Whether its features have a point in common.
    fn is_shared(self, rows: Rows<'_>) -> bool
        ensures { result ≡ naming.shared (sheet_of_rows rows.entry) self };

    /// The test that it names.
    fn test(self, rows: Rows<'_>) -> Test
        ensures { result.shape ≡ naming.shape (sheet_of_rows rows.entry) self };

    // at the scale of the sheet
    ghost unscaled: { (s : Sheet) (x : Self) → (naming.shape s x).scale ≡ 0 };

    // names are the same as entries are
    ghost sameness: { naming.same ≡ Self.same };
}

impl TestName for VfName {
    ghost naming = { vf_naming };

    ghost unscaled = { λ s x. refl };

    ghost sameness = { refl };

    fn is_inside(self, rows: Rows<'_>) -> bool {
        (self.point as usize) < rows.points()
            && (self.face as usize) < rows.faces()
            && has_corners_below(rows.face(self.face), rows.points())
    }

    fn is_shared(self, rows: Rows<'_>) -> bool {
        let Face { a, b, c } = rows.face(self.face);
        self.point == a || self.point == b || self.point == c
    }

    // an offer makes up to fifteen of them: here, where they are used, they need no copy
    #[inline(always)]
    fn test(self, rows: Rows<'_>) -> Test {
        let face = rows.face(self.face);
        let p = rows.point(self.point);
        let a = rows.point(face.a);
        let b = rows.point(face.b);
        let c = rows.point(face.c);
        test_of(Kind::Vf, p, a, b, c)
    }
}

impl TestName for EeName {
    ghost naming = { ee_naming };

    ghost unscaled = { λ s x. refl };

    ghost sameness = { refl };

    fn is_inside(self, rows: Rows<'_>) -> bool {
        let n = rows.points();
        (self.u as usize) < n
            && (self.v as usize) < n
            && (self.k as usize) < n
            && (self.l as usize) < n
    }

    fn is_shared(self, _rows: Rows<'_>) -> bool {
        self.u == self.k || self.u == self.l || self.v == self.k || self.v == self.l
    }

    #[inline(always)]
    fn test(self, rows: Rows<'_>) -> Test {
        let u = rows.point(self.u);
        let v = rows.point(self.v);
        let k = rows.point(self.k);
        let l = rows.point(self.l);
        test_of(Kind::Ee, l, k, u, v)
    }
}

/// Whether each corner of the face is one of so many points.
pub(crate) fn has_corners_below(face: Face, points: usize) -> bool
    ensures { result ≡ corners_below points face }
{
    (face.a as usize) < points && (face.b as usize) < points && (face.c as usize) < points
}

/// The test of four points of a sheet.
fn test_of(kind: Kind, p: Moving, a: Moving, b: Moving, c: Moving) -> Test
    requires first { InReach 0 p × InReach 0 a }
    requires second { InReach 0 b × InReach 0 c }
    ensures { result.shape ≡ record { kind = kind; p = p; a = a; b = b; c = c; scale = 0 } }
{
    Test {
        shape: Shape {
            kind,
            p,
            a,
            b,
            c,
            scale: 0,
        },
    }
}
