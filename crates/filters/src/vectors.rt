// Sums and products of vectors, exact: each has room for its answer where its arguments are as
// small as it asks.
ghost use Rattle.std.specs.Prelude.{◌≡◌, ◌*◌, ◌^◌, ◌-ℤ◌, ◌*ℤ◌};
ghost use Rattle.motion.specs.Vectors.{◌+ᵛ◌, ◌-ᵛ◌, dot, cross};
ghost use Rattle.filters.specs.inner.Bounds.{Bounded, Reach};

use motion::V3;

pub(crate) fn plus(u: V3, v: V3) -> V3
    requires { (Reach (2 ^ 61) u) × (Reach (2 ^ 61) v) }
    ensures { result ≡ u +ᵛ v }
{
    V3 {
        x: u.x + v.x,
        y: u.y + v.y,
        z: u.z + v.z,
    }
}

pub(crate) fn minus(u: V3, v: V3) -> V3
    requires { (Reach (2 ^ 61) u) × (Reach (2 ^ 61) v) }
    ensures { result ≡ u -ᵛ v }
{
    V3 {
        x: u.x - v.x,
        y: u.y - v.y,
        z: u.z - v.z,
    }
}

/// The way from one point to another, where both are as near as the bounds of a test make them.
pub(crate) fn way(from: V3, to: V3) -> V3
    requires { (Reach (2 ^ 18) from) × (Reach (2 ^ 18) to) }
    ensures value { result ≡ to -ᵛ from }
    ensures reach { Reach (2 ^ 19) result }
{
    minus(to, from)
}

pub(crate) fn dot(u: V3, v: V3) -> i64
    requires { (Reach (2 ^ 19) u) × (Reach (3 * 2 ^ 40) v) }
    ensures { result ≡ dot u v }
{
    u.x * v.x + u.y * v.y + u.z * v.z
}

#[tactic(auto, unfolding(motion::specs::Vectors::cross))]
pub(crate) fn cross(u: V3, v: V3) -> V3
    requires { (Reach (2 ^ 20) u) × (Reach (2 ^ 20) v) }
    ensures { result ≡ cross u v }
{
    V3 {
        x: minor(u.y, u.z, v.y, v.z),
        y: minor(u.z, u.x, v.z, v.x),
        z: minor(u.x, u.y, v.x, v.y),
    }
}

// a d − b c
fn minor(a: i64, b: i64, c: i64, d: i64) -> i64
    requires first { Bounded (2 ^ 20) a }
    requires second { Bounded (2 ^ 20) b }
    requires third { Bounded (2 ^ 20) c }
    requires fourth { Bounded (2 ^ 20) d }
    ensures { result ≡ a *ℤ d -ℤ b *ℤ c }
{
    a * d - b * c
}
