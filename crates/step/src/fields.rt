// One field of a record: the move of one coordinate.
ghost use Rattle.std.specs.Prelude.{◌≡◌, ◌+ℤ◌, ◌<◌, true, IfOk, if◌then◌else◌, Some, None};
ghost use Rattle.sheet.specs.Checks.{first_fit, fault_notice};
ghost use Rattle.sheet.specs.Counted.{in_range};
ghost use Rattle.step.specs.Faults.{notice_of_step};
ghost use Rattle.step.specs.Laying.{bit_stands, field_checks, end_in, after_field};

use crate::faults::{Spot, StepFault};
use sheet::COORDINATE_BOUND;

/// The end of a coordinate that starts at `start`, and the rest of the record. It moves if the map
/// has its bit.
pub(crate) fn read_field(
    bytes: &[u8],
    map: u8,
    bit: u8,
    start: i16,
    spot: Spot,
) -> Result<(i16, &[u8]), StepFault>
    requires { 0 < bit }
    ensures fault { let stands = bit_stands map bit in
        fault_notice notice_of_step result ≡ first_fit (field_checks spot stands start bytes.now) }
    ensures end { IfOk result (λ p. p.0 ≡ end_in (bit_stands map bit) start bytes.now) }
    ensures rest { IfOk result (λ p. p.1.now ≡ after_field (bit_stands map bit) bytes.now) }
{
    if map / bit % 2 == 0 {
        return Ok((start, bytes));
    }
    read_end(bytes, start, spot)
}

/// The end that the front of a record gives to a coordinate that moves, and the rest of the record.
fn read_end(bytes: &[u8], start: i16, spot: Spot) -> Result<(i16, &[u8]), StepFault>
    ensures fault { fault_notice notice_of_step result
        ≡ first_fit (field_checks spot true start bytes.now) }
    ensures end { IfOk result (λ p. p.0 ≡ end_in true start bytes.now) }
    ensures rest { IfOk result (λ p. p.1.now ≡ after_field true bytes.now) }
{
    let [low, high, rest @ ..] = bytes else {
        return Err(StepFault::EndsEarly(spot));
    };
    let by = i16::from_le_bytes([*low, *high]);
    if by == 0 {
        return Err(StepFault::MoveOfZero(spot));
    }
    let Some(end) = moved(start, by) else {
        return Err(StepFault::EndOutside(spot));
    };
    Ok((end, rest))
}

/// Where a move ends, if that is in range.
fn moved(start: i16, by: i16) -> Option<i16>
    ensures { result ≡ (if in_range (start +ℤ by) then Some (start +ℤ by) else None) }
{
    coordinate_at(i32::from(start) + i32::from(by))
}

/// The coordinate with this value, if that is in range.
fn coordinate_at(end: i32) -> Option<i16>
    ensures { result ≡ (if in_range end then Some end else None) }
{
    if !in_range(end) {
        return None;
    }
    Some(end as i16)
}

fn in_range(value: i32) -> bool
    ensures { result ≡ in_range value }
{
    value >= -(COORDINATE_BOUND as i32) && value <= COORDINATE_BOUND as i32
}
