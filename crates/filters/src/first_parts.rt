// The earliest part of the step that a filter passes.
ghost use Rattle.std.specs.Prelude.{◌≡◌, ◌+◌, ◌^◌, ◌<◌, ◌≤◌, nat_le, if◌then◌else◌, Some, None, IfSome};
ghost use Rattle.motion.specs.Depths.{window_at};
ghost use Rattle.motion.specs.Earliest.{EarliestMeans, first_of};
ghost use Rattle.filters.specs.FirstParts.{earliest_at};
ghost use Rattle.filters.specs.inner.Halves.{behind_first_half};

use crate::depths::has_room;
use crate::filter::Filter;
use crate::parts::parts;
use crate::tests::Test;
use crate::windows::of_last_half;

/// The earliest of the equal parts of the step that a filter passes.
#[derive(Clone, Copy, Debug, PartialEq, Eq)]
pub struct Earliest {
    /// Its number, from 0; none where the filter strikes each.
    pub part: Option<u8>,
    /// How many parts were put to the filter: those up to the one that it passed, or all.
    pub put: u8,
}

impl Earliest {
    /// As it counts in the whole, where it is of the last half and the filter struck the first,
    /// each with 2^depth parts.
    #[tactic(auto, using(crate::proofs::Inside::power_bound), unfolding(crate::specs::inner::Halves::behind_first_half))]
    fn behind_first_half(self, depth: u8) -> Earliest
        requires depth { depth ≤ 5 }
        requires part { IfSome self.part (λ k. k < 2 ^ depth) }
        requires put { self.put ≤ 2 ^ depth }
        ensures { result ≡ behind_first_half depth self }
    {
        Earliest {
            part: of_last_half(self.part, depth),
            put: parts(depth) + self.put,
        }
    }
}

/// The earliest of the 2^depth subintervals that the filter passes; no answer where the scale and
/// the depth pass 6 together. They are put to the filter one after another from the front, and
/// none after the one that it passes.
///
/// It is the first of the window (`window`). In each subinterval before it the features stay apart;
/// where there is none, they do so for the whole step (`meaning`).
#[tactic(auto, using(crate::proofs::InHalves::of_window, crate::proofs::InHalves::apart_before))]
pub fn earliest_at<F: Filter>(filter: &F, test: &Test, depth: u8) -> Option<Earliest>
    ensures answer { let set = F.Filter.struck filter.now in
        let t = test.now.shape in
        result ≡ (if nat_le (t.scale + depth) 6 then Some (earliest_at set depth t) else None) }
    ensures window { let w = window_at (F.Filter.struck filter.now) depth test.now.shape in
        IfSome result (λ e. e.part ≡ first_of w) }
    ensures meaning { IfSome result (λ e.
        EarliestMeans (F.Filter.struck filter.now) depth test.now.shape e.part) }
{
    if !has_room(test.shape.scale, depth) {
        return None;
    }
    Some(find_earliest(filter, test, depth))
}

/// The parts of the first half come before those of the last.
#[tactic(auto, using(crate::proofs::InHalves::at_whole, crate::proofs::InHalves::in_first_half, crate::proofs::InHalves::in_last_half))]
fn find_earliest<F: Filter>(filter: &F, test: &Test, depth: u8) -> Earliest
    requires { test.now.shape.scale + depth ≤ 6 }
    ensures { result ≡ earliest_at (F.Filter.struck filter.now) depth test.now.shape }
{
    if depth == 0 {
        let part = if filter.strikes(test) { None } else { Some(0) };
        return Earliest { part, put: 1 };
    }
    let early = find_earliest(filter, &test.first_half(), depth - 1);
    if early.part.is_some() {
        return early;
    }
    find_earliest(filter, &test.last_half(), depth - 1).behind_first_half(depth - 1)
}
