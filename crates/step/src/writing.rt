// Writes the record of a table into the caller's bytes.
ghost use Rattle.std.specs.Prelude.{◌≡◌, ◌+◌, ◌++◌, ◌≤◌, length, take, ◌-ℤ◌, is_ok, IfOk, IsTrue, if◌then◌else◌};
ghost use Rattle.arrayvec.specs.ArrayVec.{array_vec_len};
ghost use Rattle.sheet.specs.Checks.{first_fit, fault_notice};
ghost use Rattle.sheet.specs.Counted.{in_range};
ghost use Rattle.sheet.specs.Sheet.{onto_front, point_limit};
ghost use Rattle.step.specs.Faults.{notice_of_writer};
ghost use Rattle.step.specs.Limit.{Longest, record_limit};
ghost use Rattle.step.specs.Record.{move_of, moves_of, bit_of, map_byte, is_moving, field_of, point_record, record_of};
ghost use Rattle.step.specs.Steps.{Step, as_counted};
ghost use Rattle.step.specs.Writing.{write_checks};

use crate::faults::WriterFault;
use arrayvec::ArrayVec;
use sheet::{Coords, Draft, POINT_LIMIT, Point, coordinate_of};

/// The length of the longest record of a sheet.
#[tactic(auto, using(crate::proofs::LongestRecord::rows_most, crate::proofs::LongestRecord::all_move))]
pub fn record_limit() -> usize
    ensures value { result ≡ record_limit }
    ensures longest { Longest point_limit result }
{
    7 * POINT_LIMIT as usize
}

/// Writes the record of the draft's points into the front of `out`, and answers its length; the
/// other bytes are as they were.
///
/// What is written is a record of these rows, by which their ends come back as they count (`back`).
pub fn write(draft: &Draft, points: &[Point], out: &mut [u8]) -> Result<usize, WriterFault>
    ensures fault { fault_notice notice_of_writer result
        ≡ first_fit (write_checks draft.now.points points.now (length out.old)) }
    ensures len { let rows = take draft.now.points points.now in
        IfOk result (λ n. n ≡ length (record_of rows)) }
    ensures out { let rows = take draft.now.points points.now in
        out.new ≡ (if is_ok result then onto_front (record_of rows) out.old else out.old) }
    ensures back { let rows = take draft.now.points points.now in
        IfOk result (λ n. Step rows (take n out.new) (as_counted rows)) }
{
    let count = draft.points() as usize;
    if points.len() < count {
        return Err(WriterFault::TableTooShort);
    }
    let rows = &points[0..count];
    if out.len() < rows_len(rows) {
        return Err(WriterFault::OutputTooShort);
    }
    Ok(put_rows(rows, out))
}

/// How many bytes the record of the draft's points has, or of as many as there are.
pub fn record_len(draft: &Draft, points: &[Point]) -> usize
    ensures { result ≡ length (record_of (take draft.now.points points.now)) }
{
    let count = points.len().min(draft.points() as usize);
    rows_len(&points[..count])
}

/// How many bytes the record of these rows has.
fn rows_len(rows: &[Point]) -> usize
    requires { length rows.now ≤ 65535 }
    ensures { result ≡ length (record_of rows.now) }
{
    let mut n = 0usize;
    for row in rows {
        n += point_record(*row).len();
    }
    n
}

/// Puts the record of these rows into the front of `out`, and answers its length.
fn put_rows(rows: &[Point], out: &mut [u8]) -> usize
    requires { length (record_of rows.now) ≤ length out.old }
    ensures len { result ≡ length (record_of rows.now) }
    ensures out { out.new ≡ onto_front (record_of rows.now) out.old }
{
    let mut at = 0usize;
    for row in rows {
        let record = point_record(*row);
        let bytes = record.as_slice();
        let end = at + bytes.len();
        out[at..end].copy_from_slice(bytes);
        at = end;
    }
    at
}

/// What the record says of a point: its map byte, then a field for each axis on which it moves.
fn point_record(point: Point) -> ArrayVec<u8, 7>
    ensures { result.items ≡ point_record point }
{
    let moves = moves(point);
    let mut record = ArrayVec::new();
    record.push(map_of(moves));
    push_field(&mut record, moves.x);
    push_field(&mut record, moves.y);
    push_field(&mut record, moves.z);
    record
}

/// Adds the move of one axis, low byte first, if it moves.
fn push_field(bytes: &mut ArrayVec<u8, 7>, by: i16)
    requires { array_vec_len bytes.old + 2 ≤ 7 }
    ensures items { bytes.new.items ≡ bytes.old.items ++ field_of by }
    ensures len { array_vec_len bytes.new ≤ array_vec_len bytes.old + 2 }
{
    if by == 0 {
        return;
    }
    let [low, high] = by.to_le_bytes();
    bytes.push(low);
    bytes.push(high);
}

/// Whether a point moves.
pub fn is_moving(point: Point) -> bool
    ensures { result ≡ is_moving point }
{
    map_of(moves(point)) != 0
}

/// The map byte: a bit for each axis on which a point moves.
fn map_of(moves: Coords) -> u8
    ensures { result ≡ map_byte moves }
{
    bit(moves.x, 1) + bit(moves.y, 2) + bit(moves.z, 4)
}

/// The bit of an axis, if it moves.
fn bit(by: i16, weight: u8) -> u8
    ensures { result ≡ bit_of by weight }
{
    if by == 0 { 0 } else { weight }
}

/// How far a point goes on each axis.
fn moves(point: Point) -> Coords
    ensures { result ≡ moves_of point }
{
    let x = move_of(point.start.x, point.end.x);
    let y = move_of(point.start.y, point.end.y);
    let z = move_of(point.start.z, point.end.z);
    Coords { x, y, z }
}

fn move_of(start: i16, end: i16) -> i16
    ensures { result ≡ move_of start end }
{
    distance(coordinate_of(start), coordinate_of(end))
}

/// How far it is from one coordinate to another.
fn distance(start: i16, end: i16) -> i16
    requires start { IsTrue (in_range start) }
    requires end { IsTrue (in_range end) }
    ensures { result ≡ end -ℤ start }
{
    end - start
}
