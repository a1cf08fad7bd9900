// Two filters in a row, and the row that is delivered.
ghost use Rattle.std.specs.Prelude.{◌≡◌};
ghost use Rattle.motion.specs.Rows.{row, delivered, with_box};
ghost use Rattle.motion.proofs.RowLaws.{row-lawful};

use crate::filter::Filter;
use crate::planes::PlaneFilter;
use crate::slabs::SlabFilter;
use crate::tests::Test;

/// Two filters in a row: it strikes what one of them strikes, and asks the second only where the
/// first passed.
#[derive(Clone, Copy)]
pub struct Row<A, B> {
    pub first: A,
    pub second: B,
}

impl<A: Filter, B: Filter> Filter for Row<A, B> {
    ghost struck = { λ f. row (A.Filter.struck f.first) (B.Filter.struck f.second) };

    ghost lawful = { λ f. row-lawful (A.Filter.lawful f.first) (B.Filter.lawful f.second) };

    fn strikes(&self, test: &Test) -> bool {
        self.first.strikes(test) || self.second.strikes(test)
    }
}

/// The filter that is delivered: Slab, then Plane. What Box strikes, Slab strikes.
pub type Delivered = Row<SlabFilter, PlaneFilter>;

pub const DELIVERED: Delivered = Row {
    first: SlabFilter,
    second: PlaneFilter,
};

/// The delivered filter: it strikes exactly what Slab or Plane strikes, and so exactly what Box,
/// Slab or Plane strikes.
#[tactic(auto, using(motion::proofs::BoxLaws::without_box))]
pub fn delivered_filter() -> Delivered
    ensures set { ⟦<Delivered as Filter>⟧.struck result ≡ delivered }
    ensures with_box { ⟦<Delivered as Filter>⟧.struck result ≡ with_box }
{
    DELIVERED
}
