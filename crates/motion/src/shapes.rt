// Plain data: whole-number vectors, points that move in a straight line, and the four of a test.
ghost use Rattle.std.specs.Prelude.{◌≡◌, [], ◌∷◌};
ghost use Rattle.motion.specs.Features.{first, second};

/// A vector of whole numbers.
#[derive(Clone, Copy)]
pub struct V3 {
    pub x: i64,
    pub y: i64,
    pub z: i64,
}

/// A point that goes in a straight line from its start to its end.
#[derive(Clone, Copy)]
pub struct Moving {
    pub start: V3,
    pub end: V3,
}

/// A kind of tests: what they set against each other.
#[derive(Clone, Copy, Debug, PartialEq, Eq)]
pub enum Kind {
    /// A vertex and a face.
    Vf,
    /// Two edges.
    Ee,
}

/// A test: the point p against the face a, b, c; or the edge from b to c against the edge from a to
/// p. Its coordinates are on a grid that is 2^scale times as fine as the sheet's.
#[derive(Clone, Copy)]
pub struct Shape {
    pub kind: Kind,
    pub p: Moving,
    pub a: Moving,
    pub b: Moving,
    pub c: Moving,
    pub scale: u8,
}

/// The four values by which the filter Plane judges.
#[derive(Clone, Copy)]
pub struct Controls {
    pub g0: i64,
    pub g1: i64,
    pub g2: i64,
    pub g3: i64,
}

impl Shape {
    /// The point `p` against the face `a`, `b`, `c`.
    pub fn vf(p: Moving, a: Moving, b: Moving, c: Moving, scale: u8) -> Shape
        ensures first { first result ≡ p ∷ [] }
        ensures second { second result ≡ a ∷ b ∷ c ∷ [] }
        ensures scale { result.scale ≡ scale }
    {
        Shape {
            kind: Kind::Vf,
            p,
            a,
            b,
            c,
            scale,
        }
    }

    /// The edge from `u` to `v` against the edge from `k` to `l`.
    pub fn ee(u: Moving, v: Moving, k: Moving, l: Moving, scale: u8) -> Shape
        ensures first { first result ≡ u ∷ v ∷ [] }
        ensures second { second result ≡ k ∷ l ∷ [] }
        ensures scale { result.scale ≡ scale }
    {
        Shape {
            kind: Kind::Ee,
            p: l,
            a: k,
            b: u,
            c: v,
            scale,
        }
    }
}
