// All pairs of faces whose boxes meet.
ghost use Rattle.std.specs.Prelude.{◌≡◌, ◌+◌, ◌<◌, ◌≤◌, length, min, max};
ghost use Rattle.std.specs.List.{list_any};
ghost use Rattle.near_faces.specs.Trees.{IsTree};
ghost use Rattle.near_faces.specs.Near.{near_to, near};
ghost use Rattle.near_faces.specs.inner.Listing.{marked, put};
ghost use Rattle.near_faces.specs.inner.Sides.{boxes_in};

use crate::boxes::SweptBox;
use crate::nodes::{Node, lower_half};
use crate::sides::Sides;
use inspection::Offering;

/// A run of up to so many faces is not halved further: all its boxes are tested.
const RUN: usize = 512;

/// Where none of so many marks is set, they are passed over at once.
const STRIDE: usize = 16;

/// Two different faces, the lower number first.
#[repr(C)]
#[derive(Clone, Copy, Debug, Default, PartialEq, Eq)]
pub struct Pair {
    pub first: u16,
    pub second: u16,
}

impl Pair {
    ghost use Rattle.near_faces.specs.Near.{offering_of};

    /// As it is offered to an inspection.
    pub fn offering(self) -> Offering
        ensures { result ≡ offering_of self }
    {
        Offering::Faces(self.first, self.second)
    }
}

/// Writes as many of all pairs as there is room for, and answers how many there are.
#[tactic(auto, using(crate::proofs::Rows::all_of_them))]
pub(crate) fn list_all(tree: &[Node], sides: &Sides, faces: usize, pairs: &mut [Pair]) -> usize
    requires faces { faces ≤ 4096 }
    requires tree { IsTree 0 (boxes_in sides.now 0 faces) tree.now }
    ensures count { result ≡ length (near (boxes_in sides.now 0 faces)) }
    ensures pairs { pairs.new ≡ put (near (boxes_in sides.now 0 faces)) pairs.old }
{
    let mut count = 0;
    for i in 0..faces {
        let room = pairs.len().min(count);
        count += list_one(
            tree,
            sides,
            0,
            faces,
            i as u16,
            sides.swept(i),
            &mut pairs[room..],
        );
    }
    count
}

/// Writes as many of a face's pairs with later faces of a run as there is room for, and answers how
/// many there are.
fn list_one(
    tree: &[Node],
    sides: &Sides,
    first: usize,
    count: usize,
    face: u16,
    swept: SweptBox,
    pairs: &mut [Pair],
) -> usize
    requires numbers { first + count ≤ 4096 }
    requires tree { IsTree first (boxes_in sides.now first count) tree.now }
    ensures count { result ≡ length (near_to face swept first (boxes_in sides.now first count)) }
    ensures pairs { pairs.new
        ≡ put (near_to face swept first (boxes_in sides.now first count)) pairs.old }
{
    let from = first_later(first, face);
    let end = first + count;
    if end <= from {
        return 0;
    }
    if !swept.meets(tree[0].bounds) {
        return 0;
    }
    if count <= RUN {
        return list_run(sides, from, end - from, face, swept, pairs);
    }
    let half = lower_half(count);
    let after = 2 * half;
    let lower = list_one(&tree[1..after], sides, first, half, face, swept, pairs);
    let room = pairs.len().min(lower);
    let upper = list_one(
        &tree[after..],
        sides,
        first + half,
        count - half,
        face,
        swept,
        &mut pairs[room..],
    );
    lower + upper
}

/// Where the faces after this one begin in a run that begins at `first`.
fn first_later(first: usize, face: u16) -> usize
    ensures { result ≡ max first (face + 1) }
{
    first.max(usize::from(face) + 1)
}

/// Does the same for a run of later faces alone, by a test of each box.
fn list_run(
    sides: &Sides,
    first: usize,
    count: usize,
    face: u16,
    swept: SweptBox,
    pairs: &mut [Pair],
) -> usize
    requires numbers { first + count ≤ 4096 }
    requires few { count ≤ 512 }
    requires later { face < first }
    ensures count { result ≡ length (near_to face swept first (boxes_in sides.now first count)) }
    ensures pairs { pairs.new
        ≡ put (near_to face swept first (boxes_in sides.now first count)) pairs.old }
{
    let mut table = [false; RUN];
    let marks = &mut table[..count];
    let met = sides.mark(first, swept, marks);
    if met == 0 {
        return 0;
    }
    put_marked(marks, first, face, pairs);
    met
}

/// Writes as many of a face's pairs with the marked faces of a run as there is room for.
#[tactic(auto, using(crate::proofs::Marking::strides))]
fn put_marked(marks: &[bool], first: usize, face: u16, pairs: &mut [Pair])
    requires numbers { first + length marks.now ≤ 4096 }
    ensures { pairs.new ≡ put (marked face first marks.now) pairs.old }
{
    if pairs.is_empty() {
        return;
    }
    let strides = marks.len() / STRIDE;
    let mut count = 0;
    for s in 0..strides {
        let start = STRIDE * s;
        let stride = &marks[start..start + STRIDE];
        count += put_stride(stride, first + start, face, &mut pairs[count..]);
    }
    let start = STRIDE * strides;
    put_each(&marks[start..], first + start, face, &mut pairs[count..]);
}

/// Does the same for one stride, and answers how many pairs it has written.
#[tactic(auto, using(crate::proofs::Marking::none_marked))]
fn put_stride(marks: &[bool], first: usize, face: u16, pairs: &mut [Pair]) -> usize
    requires numbers { first + length marks.now ≤ 4096 }
    ensures count { result ≡ min (length pairs.old) (length (marked face first marks.now)) }
    ensures pairs { pairs.new ≡ put (marked face first marks.now) pairs.old }
{
    if !has_mark(marks) {
        return 0;
    }
    put_each(marks, first, face, pairs)
}

/// Does the same, mark by mark.
#[tactic(auto, using(crate::proofs::Marking::next_marks))]
fn put_each(marks: &[bool], first: usize, face: u16, pairs: &mut [Pair]) -> usize
    requires numbers { first + length marks.now ≤ 4096 }
    ensures count { result ≡ min (length pairs.old) (length (marked face first marks.now)) }
    ensures pairs { pairs.new ≡ put (marked face first marks.now) pairs.old }
{
    let mut count = 0;
    for k in 0..marks.len() {
        if marks[k] && count < pairs.len() {
            pairs[count] = Pair {
                first: face,
                second: (first + k) as u16,
            };
            count += 1;
        }
    }
    count
}

/// Whether a mark is set. This loop too has no branches.
fn has_mark(marks: &[bool]) -> bool
    ensures { result ≡ list_any (λ m. m) marks.now }
{
    let mut any = false;
    for k in 0..marks.len() {
        any |= marks[k];
    }
    any
}
