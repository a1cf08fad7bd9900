// Striking at a depth.
ghost use Rattle.std.specs.Prelude.{◌≡◌, ◌+◌, ◌≤◌, true, if◌then◌else◌, Some, None, nat_le};
ghost use Rattle.motion.specs.Depths.{struck_at, Struck};

use crate::filter::Filter;
use crate::tests::Test;

/// Whether the filter strikes each of the 2^depth subintervals of the test; none where the scale
/// and the depth pass 6 together.
///
/// A test that is struck stays apart for the whole step, and is struck at every greater depth
/// (`laws`).
pub fn struck_at<F: Filter>(filter: &F, test: &Test, depth: u8) -> Option<bool>
    ensures answer { let set = F.Filter.struck filter.now in
        let t = test.now.shape in
        result ≡ (if nat_le (t.scale + depth) 6 then Some (struck_at set depth t) else None) }
    ensures laws { result ≡ Some true → Struck (F.Filter.struck filter.now) depth test.now.shape }
{
    if !has_room(test.shape.scale, depth) {
        return None;
    }
    Some(struck(filter, test, depth))
}

/// Whether the subintervals of this depth are tests.
pub(crate) fn has_room(scale: u8, depth: u8) -> bool
    ensures { result ≡ nat_le (scale + depth) 6 }
{
    depth <= 6 && scale <= 6 - depth
}

/// What is struck whole is struck in every part, so the whole is asked first, and its halves only
/// where it passed.
#[cycle(striking)]
#[tactic(auto, using(crate::proofs::Turns::all_struck, crate::proofs::Turns::whole_step))]
pub(crate) fn struck<F: Filter>(filter: &F, test: &Test, depth: u8) -> bool
    requires { test.now.shape.scale + depth ≤ 6 }
    ensures { result ≡ struck_at (F.Filter.struck filter.now) depth test.now.shape }
{
    if filter.strikes(test) {
        return true;
    }
    if depth == 0 {
        return false;
    }
    are_halves_struck(filter, test, depth - 1)
}

/// Apart from `struck`, so that a test that is struck whole makes no room for halves.
#[cycle(striking)]
#[inline(never)]
#[tactic(auto, using(crate::proofs::Turns::halves_step))]
fn are_halves_struck<F: Filter>(filter: &F, test: &Test, depth: u8) -> bool
    requires { test.now.shape.scale + depth ≤ 5 }
    ensures { result ≡ struck_at (F.Filter.struck filter.now) (depth + 1) test.now.shape }
{
    struck(filter, &test.first_half(), depth) && struck(filter, &test.last_half(), depth)
}
