// What one line says.
ghost use Rattle.std.specs.Prelude.{◌≡◌, IfOk};
ghost use Rattle.sheet.specs.Checks.{first_fit, fault_notice};
ghost use Rattle.sheet.specs.Faults.{notice_of_line};
ghost use Rattle.sheet.specs.Lines.{content_of, fields_of};
ghost use Rattle.sheet.specs.Numerals.{value_of};
ghost use Rattle.sheet.specs.Sheet.{coordinate_checks, corner_checks, point_checks, face_checks, content_checks, spot, from_front, point_named, point_from, face_from, element_of};

use crate::faults::{LineFault, Spot};
use crate::fields::{number, split_fields};
use crate::rows::{COORDINATE_BOUND, Coords, Face, Point};
use crate::splitting::Line;

/// What a line says.
#[derive(Clone, Copy)]
pub(crate) enum Element {
    Nothing,
    Point(Point),
    Face(Face),
}

/// What `line` says, where `points` points stand above it.
pub(crate) fn read_line(line: Line<'_>, points: u16) -> Result<Element, LineFault>
    ensures fault { let content = content_of line.entry.bytes.now in
        fault_notice notice_of_line result
        ≡ first_fit (content_checks line.entry.number points content) }
    ensures element { IfOk result (λ e. e ≡ element_of points line.entry.bytes.now) }
{
    let number = line.number;
    match line.bytes {
        [] | [b'#', ..] => Ok(Element::Nothing),
        [b'v', b' ', fields @ ..] => Ok(Element::Point(read_point(fields, number)?)),
        [b'f', b' ', fields @ ..] => Ok(Element::Face(read_face(fields, number, points)?)),
        _ => Err(LineFault::NoSuchStart(Spot {
            line: number,
            field: 0,
        })),
    }
}

/// The point whose coordinates are the fields of `text`, in the line `line`. It rests.
fn read_point(text: &[u8], line: u32) -> Result<Point, LineFault>
    ensures fault { fault_notice notice_of_line result
        ≡ first_fit (point_checks line (fields_of text.now)) }
    ensures point { IfOk result (λ p. p ≡ point_from (fields_of text.now)) }
{
    let fields = split_fields(text);
    let x = coordinate(fields.first, Spot { line, field: 1 })?;
    let y = coordinate(fields.second, Spot { line, field: 2 })?;
    let z = coordinate(fields.third, Spot { line, field: 3 })?;
    let position = Coords { x, y, z };
    Ok(Point {
        start: position,
        end: position,
    })
}

fn coordinate(field: &[u8], spot: Spot) -> Result<i16, LineFault>
    ensures fault { fault_notice notice_of_line result
        ≡ first_fit (coordinate_checks spot field.now) }
    ensures value { IfOk result (λ v. v ≡ value_of field.now) }
{
    let value = number(field, spot)?;
    let bound = i32::from(COORDINATE_BOUND);
    if value < -bound || value > bound {
        return Err(LineFault::CoordinateOutside(spot));
    }
    Ok(value as i16)
}

/// The face whose corners the fields of `text` name, in the line `line`, below `points` points.
fn read_face(text: &[u8], line: u32, points: u16) -> Result<Face, LineFault>
    ensures fault { fault_notice notice_of_line result
        ≡ first_fit (face_checks line points (fields_of text.now)) }
    ensures face { IfOk result (λ f. f ≡ face_from points (fields_of text.now)) }
{
    let fields = split_fields(text);
    let a = corner(fields.first, Spot { line, field: 1 }, points, &[])?;
    let b = corner(fields.second, Spot { line, field: 2 }, points, &[a])?;
    let c = corner(fields.third, Spot { line, field: 3 }, points, &[a, b])?;
    Ok(Face { a, b, c })
}

/// The number, from 0, of the point that a field names, of the `points` above its line, other than
/// the `earlier` ones. Points count from 1, and back from −1, the latest.
fn corner(field: &[u8], spot: Spot, points: u16, earlier: &[u16]) -> Result<u16, LineFault>
    ensures fault { fault_notice notice_of_line result
        ≡ first_fit (corner_checks points spot earlier.now field.now) }
    ensures named { IfOk result (λ n. n ≡ point_named points field.now) }
{
    let value = number(field, spot)?;
    let nth = from_front(value, points);
    if nth < 1 || nth > i32::from(points) {
        return Err(LineFault::NoSuchPoint(spot));
    }
    let point = (nth - 1) as u16;
    if earlier.contains(&point) {
        return Err(LineFault::NamedBefore(spot));
    }
    Ok(point)
}

/// Which of `points` points a number names, counted from 1 at the front: −n is the nth latest.
fn from_front(n: i32, points: u16) -> i32
    ensures { result ≡ from_front points n }
{
    if n < 0 {
        return i32::from(points) + 1 + n;
    }
    n
}
