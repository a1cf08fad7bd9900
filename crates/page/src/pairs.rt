// The pairs of faces to inspect.
ghost use Rattle.std.specs.Prelude.{◌≡◌, ◌-◌, ◌^◌, [], length, min, IfSome, unwrap_or};
ghost use Rattle.hosts.specs.Pages.{onto_page};
ghost use Rattle.plan.specs.Plans.{plan};
ghost use Rattle.pairing.specs.Pairings.{pairing};
ghost use Rattle.pairing.specs.Works.{Serves};
ghost use Rattle.page.specs.Codes.{code_of_plan};

use crate::folder::code_of_plan;
use crate::room::Room;
use pairing::{Tables, pair_in_memory};

/// How a search ended, 0 complete or 1 with a fault, and how many bytes long are the pairs and the
/// line.
#[repr(C)]
#[derive(Clone, Copy, Debug, PartialEq, Eq)]
pub struct Paired {
    pub code: u32,
    pub pairs_len: usize,
    pub line_len: usize,
}

/// Finds the pairs of faces to inspect, as `near` does: puts their bytes and the line into the front
/// of these bytes, as far as they have room.
#[unsafe(no_mangle)]
pub extern "C" fn page_near(
    room: &mut Room,
    sheet: &[u8],
    step: &[u8],
    pairs: &mut [u8],
    line: &mut [u8],
) -> Paired
    ensures code { let o = pairing sheet.now step.now in
        result.code ≡ code_of_plan o.answer }
    ensures pairs { let o = pairing sheet.now step.now in
        pairs.new ≡ onto_page (unwrap_or o.stored []) pairs.old }
    ensures pairs_len { let o = pairing sheet.now step.now in
        result.pairs_len ≡ min (length (unwrap_or o.stored [])) (2 ^ 64 - 1) }
    ensures line { let o = pairing sheet.now step.now in
        line.new ≡ onto_page o.line line.old }
    ensures line_len { let o = pairing sheet.now step.now in
        result.line_len ≡ min (length o.line) (2 ^ 64 - 1) }
    ensures serves { let o = pairing sheet.now step.now in
        IfSome o.stored (Serves (plan sheet.now step.now [])) }
{
    let mut tables = Tables::new();
    let paired = pair_in_memory(
        &mut tables,
        &mut room.near,
        &mut room.bytes,
        sheet,
        step,
        pairs,
        line,
    );
    Paired {
        code: code_of_plan(paired.ending),
        pairs_len: paired.pairs_len,
        line_len: paired.line_len,
    }
}
