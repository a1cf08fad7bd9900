// A plan's three files.
ghost use Rattle.std.specs.Prelude.{◌≡◌, ◌-◌, ◌^◌, ◌≤◌, length, min, take};
ghost use Rattle.hosts.specs.Pages.{onto_page};
ghost use Rattle.plan.specs.Plans.{plan};
ghost use Rattle.works.specs.inspect.Plans.{printout, ClaimOfPlan};
ghost use Rattle.works.specs.inspect.Settled.{SettlesPlanOnto};
ghost use Rattle.page.specs.Codes.{code_of_plan};

use plan::Ending;
use works::inspect::{Tables, inspect_bytes};

/// How an inspection ended, 0 complete or 1 with a fault, and how many bytes long are its text and
/// the pairs that it refused.
#[repr(C)]
#[derive(Clone, Copy, Debug, PartialEq, Eq)]
pub struct Inspected {
    pub code: u32,
    pub text_len: usize,
    pub refused_len: usize,
}

/// Inspects a plan, as `inspect` does a folder: puts what is printed, and the pairs that are refused,
/// into the front of these bytes, as far as they have room.
#[unsafe(no_mangle)]
pub extern "C" fn page_inspect(
    sheet: &[u8],
    step: &[u8],
    pairs: &[u8],
    text: &mut [u8],
    refused: &mut [u8],
) -> Inspected
    ensures code { let p = plan sheet.now step.now pairs.now in
        result.code ≡ code_of_plan (printout p).ending }
    ensures text { let p = plan sheet.now step.now pairs.now in
        text.new ≡ onto_page (printout p).text text.old }
    ensures text_len { let p = plan sheet.now step.now pairs.now in
        result.text_len ≡ min (length (printout p).text) (2 ^ 64 - 1) }
    ensures refused { let p = plan sheet.now step.now pairs.now in
        refused.new ≡ onto_page (printout p).stored refused.old }
    ensures refused_len { let p = plan sheet.now step.now pairs.now in
        result.refused_len ≡ min (length (printout p).stored) (2 ^ 64 - 1) }
    ensures claim { ClaimOfPlan (plan sheet.now step.now pairs.now) }
    ensures settles { let p = plan sheet.now step.now pairs.now in
        result.code ≡ 0 → result.text_len ≤ length text.new
        → SettlesPlanOnto p (take result.text_len text.new) refused.old refused.new }
{
    let mut tables = Tables::new();
    let inspected = inspect_bytes(&mut tables, sheet, step, pairs, text, refused);
    Inspected {
        code: code_of_plan(inspected.ending),
        text_len: inspected.printed_len,
        refused_len: inspected.stored_len,
    }
}

/// The number of an ending.
pub(crate) fn code_of_plan(ending: Ending) -> u32
    ensures { result ≡ code_of_plan ending }
{
    match ending {
        Ending::Complete => 0,
        Ending::Faulty(_) => 1,
    }
}
