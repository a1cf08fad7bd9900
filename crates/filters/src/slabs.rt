// The filter Slab: a direction along which one feature stays beyond the other.
ghost use Rattle.std.specs.Prelude.{◌≡◌, All};
ghost use Rattle.std.specs.List.{list_any};
ghost use Rattle.motion.specs.Slab.{parted_along, directions, slab_set};
ghost use Rattle.motion.specs.Laws.{Within};
ghost use Rattle.motion.proofs.SlabLaws.{slab-lawful};
ghost use Rattle.filters.specs.inner.Slabs.{diagonals};

use crate::differences::Differences;
use crate::filter::Filter;
use crate::tests::Test;
use motion::{Shape, V3};

/// All directions with entries −1, 0 and 1, not all 0, the first that is not 0 being 1.
const DIRECTIONS: [V3; 13] = [
    V3 { x: 1, y: 0, z: 0 },
    V3 { x: 0, y: 1, z: 0 },
    V3 { x: 0, y: 0, z: 1 },
    V3 { x: 1, y: 1, z: 0 },
    V3 { x: 1, y: -1, z: 0 },
    V3 { x: 1, y: 0, z: 1 },
    V3 { x: 1, y: 0, z: -1 },
    V3 { x: 0, y: 1, z: 1 },
    V3 { x: 0, y: 1, z: -1 },
    V3 { x: 1, y: 1, z: 1 },
    V3 { x: 1, y: 1, z: -1 },
    V3 { x: 1, y: -1, z: 1 },
    V3 { x: 1, y: -1, z: -1 },
];

/// Strikes where along one of thirteen directions one feature stays beyond the other.
#[derive(Clone, Copy)]
pub struct SlabFilter;

impl Filter for SlabFilter {
    ghost struck = { λ f. slab_set };

    ghost lawful = { λ f. slab-lawful };

    // the axes first: most tests that are struck are parted along one of them
    #[tactic(auto, using(crate::proofs::Somewhere::by_an_axis, crate::proofs::Somewhere::by_no_axis))]
    fn strikes(&self, test: &Test) -> bool {
        is_parted_along_some(&all_directions()[..3], test) || is_parted_diagonally(test)
    }
}

/// Just the directions of the rule, in its order.
fn all_directions() -> &'static [V3; 13]
    ensures { result.now ≡ directions }
{
    &DIRECTIONS
}

/// Along a direction that is no axis. Not put into its caller, so that a test that an axis parts
/// needs no stack for it; and in two slices, each so short that the compiler lays its directions out
/// one by one, with no product left.
#[inline(never)]
#[tactic(auto, using(crate::proofs::Somewhere::by_two, crate::proofs::Somewhere::by_three))]
fn is_parted_diagonally(test: &Test) -> bool
    ensures { result ≡ list_any (parted_along test.now.shape) diagonals }
{
    is_parted_along_some(&all_directions()[3..9], test)
        || is_parted_along_some(&all_directions()[9..], test)
}

/// Along one of these directions one feature is beyond the other, at the start and at the end
/// alike.
#[inline(always)]
fn is_parted_along_some(directions: &[V3], test: &Test) -> bool
    requires { All (Within 1) directions.now }
    ensures { result ≡ list_any (parted_along test.now.shape) directions.now }
{
    Differences::of(test).have_one_sign_along_some(directions)
}
