// By how much the points of a test's two features differ.
ghost use Rattle.std.specs.Prelude.{◌≡◌, All};
ghost use Rattle.std.specs.List.{list_any};
ghost use Rattle.motion.specs.Laws.{Within};
ghost use Rattle.filters.specs.inner.Differences.{at_start, at_end, have_one_sign};
ghost use Rattle.filters.specs.inner.Lanes.{vectors, InLanes};

use crate::lanes::Vectors;
use crate::tests::Test;
use crate::vectors::way;
use motion::{Kind, V3};

/// The points of the first feature less those of the second. A point and a face have three such
/// pairs; the last stands twice.
#[derive(Clone, Copy)]
pub(crate) struct Differences {
    start: Vectors,
    end: Vectors,
}

impl Differences {
    #[inline(always)]
    #[tactic(auto, using(crate::proofs::Inside::power_bound))]
    pub(crate) fn of(test: &Test) -> Differences
        ensures start { vectors result.start ≡ at_start test.now.shape }
        ensures end { vectors result.end ≡ at_end test.now.shape }
        ensures start_lanes { InLanes result.start }
        ensures end_lanes { InLanes result.end }
    {
        let t = &test.shape;
        // a point of the first feature against two of the second, and one against two
        let (m, n, u, v, w, x) = match t.kind {
            Kind::Vf => (&t.p, &t.p, &t.a, &t.b, &t.c, &t.c),
            Kind::Ee => (&t.b, &t.c, &t.a, &t.p, &t.a, &t.p),
        };
        Differences {
            start: Vectors::new(
                way(u.start, m.start),
                way(v.start, m.start),
                way(w.start, n.start),
                way(x.start, n.start),
            ),
            end: Vectors::new(
                way(u.end, m.end),
                way(v.end, m.end),
                way(w.end, n.end),
                way(x.end, n.end),
            ),
        }
    }

    /// Whether along one of these directions they have one sign.
    #[inline(always)]
    pub(crate) fn have_one_sign_along_some(self, directions: &[V3]) -> bool
        requires short { All (Within 1) directions.now }
        requires start { InLanes self.start }
        requires end { InLanes self.end }
        ensures { result
            ≡ list_any (λ d. have_one_sign d (vectors self.start) (vectors self.end)) directions.now }
    {
        directions.iter().any(|d| self.have_one_sign_along(*d))
    }

    /// Whether the direction's products with them are all above zero, or all below.
    #[inline(always)]
    fn have_one_sign_along(self, d: V3) -> bool
        requires short { Within 1 d }
        requires start { InLanes self.start }
        requires end { InLanes self.end }
        ensures { result ≡ have_one_sign d (vectors self.start) (vectors self.end) }
    {
        let start = self.start.signs_along(d);
        let end = self.end.signs_along(d);
        start.above & end.above | start.below & end.below
    }
}
