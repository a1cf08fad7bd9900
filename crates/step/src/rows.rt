// What a record says of one row.
ghost use Rattle.std.specs.Prelude.{◌≡◌, IfOk};
ghost use Rattle.sheet.specs.Checks.{first_fit, fault_notice};
ghost use Rattle.step.specs.Faults.{notice_of_step};
ghost use Rattle.step.specs.Laying.{row_checks, with_end, after_row, fields_checks, ends_of, after_fields};

use crate::faults::{Spot, StepFault};
use crate::fields::read_field;
use sheet::{Coords, Point};

/// The row with the end that the front of a record gives, and the rest of the record. It is the row
/// of point `number`.
pub(crate) fn read_row(bytes: &[u8], row: Point, number: u32) -> Result<(Point, &[u8]), StepFault>
    ensures fault { fault_notice notice_of_step result
        ≡ first_fit (row_checks number row bytes.now) }
    ensures row { IfOk result (λ p. p.0 ≡ with_end row bytes.now) }
    ensures rest { IfOk result (λ p. p.1.now ≡ after_row bytes.now) }
{
    let spot = Spot {
        point: number,
        field: 0,
    };
    let [map, fields @ ..] = bytes else {
        return Err(StepFault::EndsEarly(spot));
    };
    if *map > 7 {
        return Err(StepFault::MapTooLarge(spot));
    }
    let (end, rest) = read_fields(fields, *map, row.start.counted(), number)?;
    let start = row.start;
    Ok((Point { start, end }, rest))
}

/// The end that the fields after a map give, and the rest of the record.
fn read_fields(
    bytes: &[u8],
    map: u8,
    start: Coords,
    point: u32,
) -> Result<(Coords, &[u8]), StepFault>
    ensures fault { fault_notice notice_of_step result
        ≡ first_fit (fields_checks map point start bytes.now) }
    ensures end { IfOk result (λ p. p.0 ≡ ends_of map start bytes.now) }
    ensures rest { IfOk result (λ p. p.1.now ≡ after_fields map bytes.now) }
{
    let (x, bytes) = read_field(bytes, map, 1, start.x, Spot { point, field: 1 })?;
    let (y, bytes) = read_field(bytes, map, 2, start.y, Spot { point, field: 2 })?;
    let (z, rest) = read_field(bytes, map, 4, start.z, Spot { point, field: 3 })?;
    Ok((Coords { x, y, z }, rest))
}
