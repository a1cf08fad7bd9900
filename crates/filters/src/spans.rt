// Stretches of a line, and the two features of a test as such.
ghost use Rattle.std.specs.Prelude.{◌≡◌};
ghost use Rattle.filters.specs.inner.Spans.{stretch, hull, sides, lies_below, parted};

use motion::Kind;

/// From `low` to `high`, both included.
#[derive(Clone, Copy)]
pub(crate) struct Span {
    pub low: i64,
    pub high: i64,
}

impl Span {
    pub(crate) fn between(x: i64, y: i64) -> Span
        ensures { result ≡ stretch x y }
    {
        Span {
            low: x.min(y),
            high: x.max(y),
        }
    }

    fn join(self, other: Span) -> Span
        ensures { result ≡ hull self other }
    {
        Span {
            low: self.low.min(other.low),
            high: self.high.max(other.high),
        }
    }

    fn is_under(self, other: Span) -> bool
        ensures { result ≡ lies_below self other }
    {
        self.high < other.low
    }
}

/// The stretches of the first and of the second feature.
#[derive(Clone, Copy)]
pub(crate) struct Sides {
    pub first: Span,
    pub second: Span,
}

impl Sides {
    /// From the stretches of the points p, a, b, c of a test.
    pub(crate) fn new(kind: Kind, p: Span, a: Span, b: Span, c: Span) -> Sides
        ensures { result ≡ sides kind p a b c }
    {
        match kind {
            Kind::Vf => Sides {
                first: p,
                second: a.join(b).join(c),
            },
            Kind::Ee => Sides {
                first: b.join(c),
                second: a.join(p),
            },
        }
    }

    /// One lies under the other.
    pub(crate) fn are_parted(self) -> bool
        ensures { result ≡ parted self }
    {
        self.first.is_under(self.second) || self.second.is_under(self.first)
    }
}
