// The window at a depth.
ghost use Rattle.std.specs.Prelude.{◌≡◌, ◌+◌, ◌^◌, ◌<◌, ◌≤◌, nat_le, if◌then◌else◌, Some, None, IfSome};
ghost use Rattle.std.specs.Option.{option_map};
ghost use Rattle.motion.specs.Depths.{first_passed, last_passed, window_at, WindowMeans};

use crate::depths::has_room;
use crate::filter::Filter;
use crate::parts::parts;
use crate::tests::Test;

/// The first and the last of the 2^depth subintervals that the filter passes, or none where it
/// strikes each; no answer where the scale and the depth pass 6 together.
///
/// In each subinterval before the first and after the last the features stay apart; where there is
/// no window, they do so for the whole step (`meaning`).
pub fn window_at<F: Filter>(filter: &F, test: &Test, depth: u8) -> Option<Option<(u8, u8)>>
    ensures answer { let set = F.Filter.struck filter.now in
        let t = test.now.shape in
        result ≡ (if nat_le (t.scale + depth) 6 then Some (window_at set depth t) else None) }
    ensures meaning { IfSome result
        (WindowMeans (F.Filter.struck filter.now) depth test.now.shape) }
{
    if !has_room(test.shape.scale, depth) {
        return None;
    }
    Some(window(filter, test, depth))
}

#[tactic(auto, unfolding(motion::specs::Depths::window_at))]
fn window<F: Filter>(filter: &F, test: &Test, depth: u8) -> Option<(u8, u8)>
    requires { test.now.shape.scale + depth ≤ 6 }
    ensures { result ≡ window_at (F.Filter.struck filter.now) depth test.now.shape }
{
    first_passed(filter, test, depth).zip(last_passed(filter, test, depth))
}

/// What is struck whole is struck in every part, so the whole is asked first, and its halves only
/// where it passed.
#[tactic(auto, using(motion::proofs::Windows::first_none, motion::proofs::Windows::first_whole, motion::proofs::Windows::first_step))]
fn first_passed<F: Filter>(filter: &F, test: &Test, depth: u8) -> Option<u8>
    requires { test.now.shape.scale + depth ≤ 6 }
    ensures { result ≡ first_passed (F.Filter.struck filter.now) depth test.now.shape }
{
    if filter.strikes(test) {
        return None;
    }
    if depth == 0 {
        return Some(0);
    }
    let early = test.first_half();
    if let Some(part) = first_passed(filter, &early, depth - 1) {
        return Some(part);
    }
    let late = test.last_half();
    of_last_half(first_passed(filter, &late, depth - 1), depth - 1)
}

/// The same from the end.
#[tactic(auto, using(motion::proofs::Windows::last_none, motion::proofs::Windows::last_whole, motion::proofs::Windows::last_step))]
fn last_passed<F: Filter>(filter: &F, test: &Test, depth: u8) -> Option<u8>
    requires { test.now.shape.scale + depth ≤ 6 }
    ensures { result ≡ last_passed (F.Filter.struck filter.now) depth test.now.shape }
{
    if filter.strikes(test) {
        return None;
    }
    if depth == 0 {
        return Some(0);
    }
    let late = test.last_half();
    if let Some(part) = of_last_half(last_passed(filter, &late, depth - 1), depth - 1) {
        return Some(part);
    }
    let early = test.first_half();
    last_passed(filter, &early, depth - 1)
}

/// The number in the whole of a subinterval of the last half, where each half has 2^depth.
pub(crate) fn of_last_half(part: Option<u8>, depth: u8) -> Option<u8>
    requires depth { depth ≤ 5 }
    requires part { IfSome part (λ k. k < 2 ^ depth) }
    ensures { result ≡ option_map (λ k. 2 ^ depth + k) part }
{
    let part = part?;
    Some(parts(depth) + part)
}
