// Four vectors in lanes.
ghost use Rattle.std.specs.Prelude.{◌≡◌, ◌^◌, ◌∷◌, []};
ghost use Rattle.std.specs.List.{list_all};
ghost use Rattle.motion.specs.Laws.{Within};
ghost use Rattle.motion.specs.Slab.{above, below};
ghost use Rattle.filters.specs.inner.Bounds.{Bounded, Reach};
ghost use Rattle.filters.specs.inner.Lanes.{vectors, InLanes};

use motion::V3;
use std::simd::prelude::*;

/// Four vectors, a lane for each.
#[derive(Clone, Copy)]
pub(crate) struct Vectors {
    x: i32x4,
    y: i32x4,
    z: i32x4,
}

/// Whether numbers are all above zero, and whether they are all below.
#[derive(Clone, Copy)]
pub(crate) struct Signs {
    pub above: bool,
    pub below: bool,
}

impl Vectors {
    #[inline(always)]
    pub(crate) fn new(a: V3, b: V3, c: V3, d: V3) -> Vectors
        requires { Reach (2 ^ 19) a × Reach (2 ^ 19) b × Reach (2 ^ 19) c × Reach (2 ^ 19) d }
        ensures vectors { vectors result ≡ a ∷ b ∷ c ∷ d ∷ [] }
        ensures lanes { InLanes result }
    {
        Vectors {
            x: lanes(a.x, b.x, c.x, d.x),
            y: lanes(a.y, b.y, c.y, d.y),
            z: lanes(a.z, b.z, c.z, d.z),
        }
    }

    /// The signs of the direction's products with them.
    #[inline(always)]
    pub(crate) fn signs_along(self, d: V3) -> Signs
        requires short { Within 1 d }
        requires lanes { InLanes self }
        ensures above { result.above ≡ list_all (above d) (vectors self) }
        ensures below { result.below ≡ list_all (below d) (vectors self) }
    {
        let x = i32x4::splat(d.x as i32).strict_mul(self.x);
        let y = i32x4::splat(d.y as i32).strict_mul(self.y);
        let z = i32x4::splat(d.z as i32).strict_mul(self.z);
        let products = x.strict_add(y).strict_add(z);
        let zero = i32x4::splat(0);
        Signs {
            above: products.simd_gt(zero).all(),
            below: products.simd_lt(zero).all(),
        }
    }
}

#[inline(always)]
fn lanes(a: i64, b: i64, c: i64, d: i64) -> i32x4
    requires { Bounded (2 ^ 19) a × Bounded (2 ^ 19) b × Bounded (2 ^ 19) c × Bounded (2 ^ 19) d }
    ensures { result ≡ a ∷ b ∷ c ∷ d ∷ [] }
{
    i32x4::from_array([a as i32, b as i32, c as i32, d as i32])
}
