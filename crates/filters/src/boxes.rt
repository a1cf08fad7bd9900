// The filter Box: an axis on which the two features lie one below the other over the whole step.
ghost use Rattle.std.specs.Prelude.{◌≡◌};
ghost use Rattle.motion.specs.Box.{parted_on, box_set};
ghost use Rattle.motion.proofs.BoxLaws.{box-lawful};
ghost use Rattle.filters.specs.inner.Boxes.{coordinate, swept};

use crate::filter::Filter;
use crate::spans::{Sides, Span};
use crate::tests::Test;
use motion::{Moving, Shape, V3};

/// Strikes where on some axis the two features lie one below the other over the whole step.
#[derive(Clone, Copy)]
pub struct BoxFilter;

impl Filter for BoxFilter {
    ghost struck = { λ f. box_set };

    ghost lawful = { λ f. box-lawful };

    fn strikes(&self, test: &Test) -> bool {
        let t = test.shape;
        Axis::X.separates(t) || Axis::Y.separates(t) || Axis::Z.separates(t)
    }
}

#[derive(Clone, Copy)]
enum Axis {
    X,
    Y,
    Z,
}

impl Axis {
    fn of(self, v: V3) -> i64
        ensures { result ≡ coordinate self v }
    {
        match self {
            Axis::X => v.x,
            Axis::Y => v.y,
            Axis::Z => v.z,
        }
    }

    /// The coordinates that a point takes.
    fn sweep(self, m: Moving) -> Span
        ensures { result ≡ swept self m }
    {
        Span::between(self.of(m.start), self.of(m.end))
    }

    fn separates(self, t: Shape) -> bool
        ensures { result ≡ parted_on (coordinate self) t }
    {
        let p = self.sweep(t.p);
        let a = self.sweep(t.a);
        let b = self.sweep(t.b);
        let c = self.sweep(t.c);
        Sides::new(t.kind, p, a, b, c).are_parted()
    }
}
