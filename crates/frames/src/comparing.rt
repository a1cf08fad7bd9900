// Two frames of one sheet: how they differ, and the step between them.
ghost use Rattle.std.specs.Prelude.{◌≡◌, take};
ghost use Rattle.frames.specs.Comparing.{same_face, first_other, difference_of, toward, ending_at, moving_in};

use sheet::{Draft, Face, Point};
use step::is_moving;

/// How two frames differ: in their numbers of points, in their numbers of faces, or in a face.
#[derive(Clone, Copy, Debug, PartialEq, Eq)]
pub enum Difference {
    Points(u16, u16),
    Faces(u16, u16),
    Face(usize),
}

/// The first difference between two frames, each a draft and its table of faces.
pub fn compare_frames(
    start: &Draft,
    start_faces: &[Face],
    end: &Draft,
    end_faces: &[Face],
) -> Option<Difference>
    ensures { result ≡ difference_of start.now start_faces.now end.now end_faces.now }
{
    if start.points() != end.points() {
        return Some(Difference::Points(start.points(), end.points()));
    }
    if start.faces() != end.faces() {
        return Some(Difference::Faces(start.faces(), end.faces()));
    }
    let faces = front(start_faces, start.faces());
    let others = front(end_faces, start.faces());
    first_other(faces, others).map(Difference::Face)
}

/// The first `count` rows of a table, or all where it has fewer.
fn front<T>(rows: &[T], count: u16) -> &[T]
    ensures { result.now ≡ take count rows.now }
{
    let count = rows.len().min(count as usize);
    &rows[..count]
}

/// The first row in which two tables differ.
fn first_other(faces: &[Face], others: &[Face]) -> Option<usize>
    ensures { result ≡ first_other faces.now others.now }
{
    faces
        .iter()
        .zip(others)
        .position(|(face, other)| !same_face(*face, *other))
}

fn same_face(face: Face, other: Face) -> bool
    ensures { result ≡ same_face face other }
{
    face.a == other.a && face.b == other.b && face.c == other.c
}

/// Gives each point the end at which the same row of another frame starts.
#[tactic(auto, using(crate::proofs::FrameLaws::ending_more))]
pub fn end_at(points: &mut [Point], frame: &[Point])
    ensures { points.new ≡ ending_at points.old frame.now }
{
    let count = points.len().min(frame.len());
    for i in 0..count {
        points[i] = toward(points[i], frame[i]);
    }
}

/// A point that ends where another starts.
fn toward(point: Point, other: Point) -> Point
    ensures { result ≡ toward point other }
{
    Point {
        start: point.start,
        end: other.start,
    }
}

/// How many of the draft's points move.
pub fn moving(draft: &Draft, points: &[Point]) -> usize
    ensures { result ≡ moving_in (take draft.now.points points.now) }
{
    front(points, draft.points())
        .iter()
        .filter(|point| is_moving(**point))
        .count()
}
