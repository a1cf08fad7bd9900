// A test within its bounds, how it is made from numbers, and its halves.
ghost use Rattle.std.specs.Prelude.{◌≡◌, ◌↔◌, ◌≤◌, IsTrue, MatchOption};
ghost use Rattle.motion.specs.Laws.{Within, InReach, Valid, portion, half};

use crate::vectors::plus;
use motion::{Moving, Shape, V3};

/// A test within its bounds: a scale of at most 6, and no coordinate further from zero than
/// 4,096·2^scale.
#[derive(Clone, Copy)]
pub struct Test {
    pub shape: Shape,
    ghost valid: { Valid shape },
}

impl Test {
    /// The test of these numbers; none where the scale is over 6 or a coordinate is outside
    /// ±4,096·2^scale.
    pub fn new(shape: Shape) -> Option<Test>
        ensures { MatchOption result (¬ Valid shape) (λ t. t.shape ≡ shape) }
    {
        if !is_valid(shape) {
            return None;
        }
        Some(Test { shape })
    }

    /// The first half of the step, on a grid twice as fine.
    #[tactic(auto, using(crate::proofs::Inside::power_bound))]
    pub(crate) fn first_half(&self) -> Test
        requires { self.now.shape.scale ≤ 5 }
        ensures { result.shape ≡ half 0 self.now.shape }
    {
        let t = self.shape;
        let shape = Shape {
            kind: t.kind,
            p: first_portion(t.p),
            a: first_portion(t.a),
            b: first_portion(t.b),
            c: first_portion(t.c),
            scale: t.scale + 1,
        };
        Test { shape }
    }

    /// The last half.
    #[tactic(auto, using(crate::proofs::Inside::power_bound))]
    pub(crate) fn last_half(&self) -> Test
        requires { self.now.shape.scale ≤ 5 }
        ensures { result.shape ≡ half 1 self.now.shape }
    {
        let t = self.shape;
        let shape = Shape {
            kind: t.kind,
            p: last_portion(t.p),
            a: last_portion(t.a),
            b: last_portion(t.b),
            c: last_portion(t.c),
            scale: t.scale + 1,
        };
        Test { shape }
    }
}

fn is_valid(t: Shape) -> bool
    ensures { IsTrue result ↔ Valid t }
{
    t.scale <= 6
        && is_in_reach(t.p, t.scale)
        && is_in_reach(t.a, t.scale)
        && is_in_reach(t.b, t.scale)
        && is_in_reach(t.c, t.scale)
}

/// Whether a point goes no further than a test of this scale reaches.
fn is_in_reach(m: Moving, scale: u8) -> bool
    requires { scale ≤ 6 }
    ensures { IsTrue result ↔ InReach scale m }
{
    let bound = 4096 << scale;
    is_within(m.start, bound) && is_within(m.end, bound)
}

fn is_within(v: V3, bound: u64) -> bool
    ensures { IsTrue result ↔ Within bound v }
{
    v.x.unsigned_abs() <= bound && v.y.unsigned_abs() <= bound && v.z.unsigned_abs() <= bound
}

/// A point's way in the first half.
#[tactic(auto, using(motion::proofs::Halves::at_start, motion::proofs::Halves::at_middle))]
fn first_portion(m: Moving) -> Moving
    requires { InReach 6 m }
    ensures { result ≡ portion 1 0 m }
{
    Moving {
        start: plus(m.start, m.start),
        end: plus(m.start, m.end),
    }
}

/// A point's way in the last half.
#[tactic(auto, using(motion::proofs::Halves::at_middle, motion::proofs::Halves::at_end))]
fn last_portion(m: Moving) -> Moving
    requires { InReach 6 m }
    ensures { result ≡ portion 1 1 m }
{
    Moving {
        start: plus(m.start, m.end),
        end: plus(m.end, m.end),
    }
}
