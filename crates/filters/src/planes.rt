// The filter Plane: the point never comes into the plane of the face, nor one edge into a plane
// with the other.
ghost use Rattle.std.specs.Prelude.{◌≡◌, ◌*◌, ◌^◌, pos, ◌+ℤ◌, ◌*ℤ◌, IsTrue};
ghost use Rattle.motion.specs.Vectors.{dot};
ghost use Rattle.motion.specs.Plane.{d0, d1, n0, n1, 2n̂, normal, controls, all_above, all_below, one_sign, plane_set, StaysAbove, StaysBelow};
ghost use Rattle.motion.proofs.PlaneLaws.{plane-lawful};
ghost use Rattle.filters.specs.Reaching.{Small};
ghost use Rattle.filters.specs.inner.Bounds.{Reach};

use crate::filter::Filter;
use crate::tests::Test;
use crate::vectors::{cross, dot, minus, plus, way};
use motion::{Controls, V3};

/// Strikes where the four control values have one sign.
#[derive(Clone, Copy)]
pub struct PlaneFilter;

impl Filter for PlaneFilter {
    ghost struck = { λ f. plane_set };

    ghost lawful = { λ f. plane-lawful };

    // not put into its caller, so that what a filter before it strikes needs no stack for it
    #[inline(never)]
    fn strikes(&self, test: &Test) -> bool {
        one_sign(controls(test))
    }
}

/// The four control values of a test: no value is rounded, and none exceeds 18·2^57 in size.
///
/// Where all four are above zero, the point stays above the plane of the other three for the whole
/// step; where all are below, it stays below.
pub fn controls(test: &Test) -> Controls
    ensures value { result ≡ controls test.now.shape }
    ensures size { Small result }
    ensures above { IsTrue (all_above result) → StaysAbove test.now.shape }
    ensures below { IsTrue (all_below result) → StaysBelow test.now.shape }
{
    Factors::of(test).combined()
}

/// What the control values are made of: the point seen from the face at the start and at the end,
/// the face's normals there, and twice the normal between. Each is as short as the bounds of a test
/// make it.
#[derive(Clone, Copy)]
struct Factors {
    d0: V3,
    d1: V3,
    n0: V3,
    n1: V3,
    between: V3,
    ghost start: { Reach (2 ^ 19) d0 × Reach (2 ^ 39) n0 },
    ghost end: { Reach (2 ^ 19) d1 × Reach (2 ^ 39) n1 },
    ghost middle: { Reach (3 * 2 ^ 40) between },
}

impl Factors {
    #[tactic(auto, using(crate::proofs::Inside::power_bound))]
    fn of(test: &Test) -> Factors
        ensures d0 { result.d0 ≡ d0 test.now.shape }
        ensures d1 { result.d1 ≡ d1 test.now.shape }
        ensures n0 { result.n0 ≡ n0 test.now.shape }
        ensures n1 { result.n1 ≡ n1 test.now.shape }
        ensures between { result.between ≡ 2n̂ test.now.shape }
    {
        let t = test.shape;
        let n0 = normal(t.a.start, t.b.start, t.c.start);
        let n1 = normal(t.a.end, t.b.end, t.c.end);
        let of_moves = normal(
            way(t.a.start, t.a.end),
            way(t.b.start, t.b.end),
            way(t.c.start, t.c.end),
        );
        Factors {
            d0: way(t.a.start, t.p.start),
            d1: way(t.a.end, t.p.end),
            n0,
            n1,
            between: minus(plus(n0, n1), of_moves),
        }
    }

    fn combined(self) -> Controls
        ensures g0 { result.g0 ≡ pos 3 *ℤ dot self.d0 self.n0 }
        ensures g1 { result.g1 ≡ dot self.d0 self.between +ℤ dot self.d1 self.n0 }
        ensures g2 { result.g2 ≡ dot self.d1 self.between +ℤ dot self.d0 self.n1 }
        ensures g3 { result.g3 ≡ pos 3 *ℤ dot self.d1 self.n1 }
    {
        Controls {
            g0: outer(self.d0, self.n0),
            g1: inner(self.d0, self.between, self.d1, self.n0),
            g2: inner(self.d1, self.between, self.d0, self.n1),
            g3: outer(self.d1, self.n1),
        }
    }
}

/// A control value at the start or at the end.
fn outer(d: V3, n: V3) -> i64
    requires { (Reach (2 ^ 19) d) × (Reach (2 ^ 39) n) }
    ensures { result ≡ pos 3 *ℤ dot d n }
{
    3 * dot(d, n)
}

/// A control value between: both terms are whole, and nothing is divided.
fn inner(d: V3, between: V3, other: V3, n: V3) -> i64
    requires first { (Reach (2 ^ 19) d) × (Reach (3 * 2 ^ 40) between) }
    requires second { (Reach (2 ^ 19) other) × (Reach (2 ^ 39) n) }
    ensures { result ≡ dot d between +ℤ dot other n }
{
    dot(d, between) + dot(other, n)
}

/// Across the triangle a, b, c.
fn normal(a: V3, b: V3, c: V3) -> V3
    requires { (Reach (2 ^ 19) a) × (Reach (2 ^ 19) b) × (Reach (2 ^ 19) c) }
    ensures { result ≡ normal a b c }
{
    cross(minus(b, a), minus(c, a))
}

/// All four above zero, or all below: a zero agrees with nothing.
fn one_sign(g: Controls) -> bool
    ensures { result ≡ one_sign g }
{
    all_above(g) | all_below(g)
}

fn all_above(g: Controls) -> bool
    ensures { result ≡ all_above g }
{
    (g.g0 > 0) & (g.g1 > 0) & (g.g2 > 0) & (g.g3 > 0)
}

fn all_below(g: Controls) -> bool
    ensures { result ≡ all_below g }
{
    (g.g0 < 0) & (g.g1 < 0) & (g.g2 < 0) & (g.g3 < 0)
}
