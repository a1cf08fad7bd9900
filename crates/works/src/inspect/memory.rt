// A plan in memory.
ghost use Rattle.std.specs.Prelude.{◌≡◌, ◌↔◌, ◌-◌, ◌^◌, ◌≤◌, length, min, take, None};
ghost use Rattle.hosts.specs.Pages.{onto_page};
ghost use Rattle.hosts.specs.inner.Filling.{Filled};
ghost use Rattle.plan.specs.Memory.{left_in};
ghost use Rattle.plan.specs.Plans.{plan, fault};
ghost use Rattle.works.specs.inspect.Plans.{printout, ClaimOfPlan, PrintsAlike};
ghost use Rattle.works.specs.inspect.Settled.{SettlesPlan, SettlesPlanOnto};
ghost use Rattle.plan.specs.declared.endings.Ending.TheVariants.{Complete};

use crate::inspect::plans::inspect_plan;
use crate::inspect::tables::Tables;
use hosts::{Memory, Page};
use plan::{Ending, PlanBytes};

/// How an inspection of a plan ends, and how long is what it prints and what it stores.
#[derive(Clone, Copy, Debug, PartialEq, Eq)]
pub struct Inspected {
    pub ending: Ending,
    pub printed_len: usize,
    pub stored_len: usize,
}

/// Inspects a plan in memory: puts what is printed, and the pairs that are refused, into the front
/// of these bytes, as far as they have room, and answers how long they are.
pub fn inspect_bytes(
    tables: &mut Tables,
    sheet: &[u8],
    step: &[u8],
    pairs: &[u8],
    page: &mut [u8],
    refused: &mut [u8],
) -> Inspected
    ensures ending { let p = plan sheet.now step.now pairs.now in
        result.ending ≡ (printout p).ending }
    ensures page { let p = plan sheet.now step.now pairs.now in
        page.new ≡ onto_page (printout p).text page.old }
    ensures printed_len { let p = plan sheet.now step.now pairs.now in
        result.printed_len ≡ min (length (printout p).text) (2 ^ 64 - 1) }
    ensures refused { let p = plan sheet.now step.now pairs.now in
        refused.new ≡ onto_page (printout p).stored refused.old }
    ensures stored_len { let p = plan sheet.now step.now pairs.now in
        result.stored_len ≡ min (length (printout p).stored) (2 ^ 64 - 1) }
    ensures complete { let p = plan sheet.now step.now pairs.now in
        (result.ending ≡ Complete) ↔ (fault p ≡ None) }
    ensures claim { let p = plan sheet.now step.now pairs.now in
        ClaimOfPlan p }
    ensures settles { let p = plan sheet.now step.now pairs.now in
        result.ending ≡ Complete → result.printed_len ≤ length page.new
        → SettlesPlanOnto p (take result.printed_len page.new) refused.old refused.new }
    ensures alike { let p = plan sheet.now step.now pairs.now in
        PrintsAlike p }
{
    let mut page = Page::new(page);
    let mut refused = Page::new(refused);
    let mut memory = Memory {
        files: PlanBytes { sheet, step, pairs },
        printed: &mut page,
        stored: &mut refused,
    };
    let ending = inspect_in(tables, &mut memory);
    Inspected {
        ending,
        printed_len: page.len(),
        stored_len: refused.len(),
    }
}

/// Inspects a plan that is still to be read.
#[tactic(auto, using(crate::proofs::of_a_plan::InMemory::ended, crate::proofs::of_a_plan::InMemory::completed, crate::proofs::of_a_plan::InMemory::settled, crate::proofs::of_a_plan::InMemory::same_page, crate::proofs::of_a_plan::InMemory::same_refused))]
fn inspect_in(
    tables: &mut Tables,
    memory: &mut Memory<'_, '_, '_, '_, PlanBytes<'_, '_, '_>>,
) -> Ending
    ensures ending { let p = left_in memory.old.files in
        result ≡ (printout p).ending }
    ensures page { let p = left_in memory.old.files in
        Filled memory.old.printed.now memory.new.printed.now (printout p).text }
    ensures refused { let p = left_in memory.old.files in
        Filled memory.old.stored.now memory.new.stored.now (printout p).stored }
    ensures complete { let p = left_in memory.old.files in
        (result ≡ Complete) ↔ (fault p ≡ None) }
    ensures claim { let p = left_in memory.old.files in
        ClaimOfPlan p }
    ensures settles { let p = left_in memory.old.files in
        result ≡ Complete → SettlesPlan p (printout p).text (printout p).stored }
    ensures same_page { memory.new.printed.ghost_name ≡ memory.old.printed.ghost_name }
    ensures same_refused { memory.new.stored.ghost_name ≡ memory.old.stored.ghost_name }
{
    match inspect_plan(tables, memory) {
        Ok(ending) => ending,
        Err(never) => match never {},
    }
}
