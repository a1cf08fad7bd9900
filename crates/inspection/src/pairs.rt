// The fifteen tests of two faces.
ghost use Rattle.std.specs.Prelude.{◌≡◌};
ghost use Rattle.inspection.specs.Pairs.{corners_against, edges};
ghost use Rattle.inspection.specs.Sheets.{sheet_of_rows};
ghost use Rattle.inspection.specs.Tests.{vf_naming, ee_naming};

use crate::names::{Edge, EeName, VfName};
use crate::offerings::Offering;
use crate::sheets::Rows;
use sheet::Face;

/// The corners of each of two faces against the other.
pub(crate) fn vf_tests(rows: Rows<'_>, what: Offering) -> [VfName; 6]
    ensures { result ≡ vf_naming.tests (sheet_of_rows rows.entry) what }
{
    let Offering::Faces(m, n) = what;
    let [a, b, c] = corners_against(rows.face(m), n);
    let [p, q, r] = corners_against(rows.face(n), m);
    [a, b, c, p, q, r]
}

/// Each corner of a face against the face with this number.
fn corners_against(f: Face, face: u16) -> [VfName; 3]
    ensures { result ≡ corners_against f face }
{
    [f.a, f.b, f.c].map(|point| VfName { point, face })
}

/// The edges of the first of two faces against those of the second.
pub(crate) fn ee_tests(rows: Rows<'_>, what: Offering) -> [EeName; 9]
    ensures { result ≡ ee_naming.tests (sheet_of_rows rows.entry) what }
{
    let Offering::Faces(m, n) = what;
    let [a, b, c] = edges(rows.face(m));
    let [p, q, r] = edges(rows.face(n));
    [
        a.against(p),
        a.against(q),
        a.against(r),
        b.against(p),
        b.against(q),
        b.against(r),
        c.against(p),
        c.against(q),
        c.against(r),
    ]
}

fn edges(f: Face) -> [Edge; 3]
    ensures { result ≡ edges f }
{
    [
        Edge::between(f.a, f.b),
        Edge::between(f.b, f.c),
        Edge::between(f.c, f.a),
    ]
}
