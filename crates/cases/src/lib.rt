//! Cases worked out by hand, of moving features, records, texts and depths: what the rules make of
//! them, as the contract of a function.
#![tactic(auto)]

ghost use Rattle.std.specs.Prelude.{◌≡◌, map, Some};
ghost use Rattle.sheet.specs.Checks.{notice};
ghost use Rattle.cases.specs.Worked.{worked_faults, WorkedCases};

use sheet::{Layer, Notice};

/// The faults of eight inputs, as they were worked out by hand: they are those of the rules.
///
/// Each case comes out by the rules as it should (`cases`). Both clauses speak of the definitions
/// that the other crates' contracts cite, and of no code.
pub fn worked_cases() -> [Notice; 8]
    ensures faults { map Some result ≡ worked_faults }
    ensures cases { WorkedCases }
{
    [
        notice(9, Layer::Step, 0, 0),
        notice(10, Layer::Step, 0, 1),
        notice(8, Layer::Step, 0, 1),
        notice(1, Layer::Field, 1, 3),
        notice(5, Layer::Line, 3, 2),
        notice(3, Layer::Line, 1, 1),
        notice(5, Layer::Line, 4, 2),
        notice(15, Layer::Opening, 7, 0),
    ]
}

fn notice(number: u8, layer: Layer, first: u32, second: u32) -> Notice
    ensures { result ≡ notice number layer first second }
{
    Notice {
        number,
        layer,
        first,
        second,
    }
}
