// A plan in memory.
ghost use Rattle.std.specs.Prelude.{◌≡◌, ◌-◌, ◌^◌, [], length, min, IfSome, unwrap_or};
ghost use Rattle.hosts.specs.Pages.{onto_page};
ghost use Rattle.hosts.specs.inner.Filling.{Filled};
ghost use Rattle.plan.specs.Memory.{left_in};
ghost use Rattle.plan.specs.Plans.{plan};
ghost use Rattle.pairing.specs.Pairings.{pairing};
ghost use Rattle.pairing.specs.Works.{Serves};

use crate::plans::pair_plan;
use crate::tables::{PAIR_BYTES, PAIR_LIMIT, Tables};
use hosts::{Memory, Page};
use near_faces::Pair;
use plan::{Ending, PlanBytes};

/// How the work ends, and how long are its line and the bytes of the pairs, in bytes.
#[derive(Clone, Copy, Debug, PartialEq, Eq)]
pub struct Paired {
    pub ending: Ending,
    pub line_len: usize,
    pub pairs_len: usize,
}

/// Finds the pairs of faces to inspect in a plan in memory: puts their bytes into the front of
/// `pairs` and the line into the front of `line`, each as far as it has room, and answers how long
/// they are. A fault has a line and no pairs. The lent tables `near` and `bytes` are worked in; what
/// they hold does not matter.
pub fn pair_in_memory(
    tables: &mut Tables,
    near: &mut [Pair; PAIR_LIMIT],
    bytes: &mut [u8; PAIR_BYTES],
    sheet: &[u8],
    step: &[u8],
    pairs: &mut [u8],
    line: &mut [u8],
) -> Paired
    ensures ending { let o = pairing sheet.now step.now in
        result.ending ≡ o.answer }
    ensures line { let o = pairing sheet.now step.now in
        line.new ≡ onto_page o.line line.old }
    ensures line_len { let o = pairing sheet.now step.now in
        result.line_len ≡ min (length o.line) (2 ^ 64 - 1) }
    ensures pairs { let o = pairing sheet.now step.now in
        pairs.new ≡ onto_page (unwrap_or o.stored []) pairs.old }
    ensures pairs_len { let o = pairing sheet.now step.now in
        result.pairs_len ≡ min (length (unwrap_or o.stored [])) (2 ^ 64 - 1) }
    ensures serves { let o = pairing sheet.now step.now in
        IfSome o.stored (Serves (plan sheet.now step.now [])) }
{
    let mut kept = Page::new(pairs);
    let mut line = Page::new(line);
    let mut memory = Memory {
        files: PlanBytes {
            sheet,
            step,
            pairs: &[],
        },
        printed: &mut line,
        stored: &mut kept,
    };
    let ending = pair_in(tables, near, bytes, &mut memory);
    Paired {
        ending,
        line_len: line.len(),
        pairs_len: kept.len(),
    }
}

/// Finds the pairs of a plan that is still to be read.
#[tactic(auto, using(crate::proofs::InMemory::ended, crate::proofs::InMemory::same_line, crate::proofs::InMemory::same_kept))]
fn pair_in(
    tables: &mut Tables,
    near: &mut [Pair; PAIR_LIMIT],
    bytes: &mut [u8; PAIR_BYTES],
    memory: &mut Memory<'_, '_, '_, '_, PlanBytes<'_, '_, '_>>,
) -> Ending
    ensures ending { let p = left_in memory.old.files in
        result ≡ (pairing p.sheet p.step).answer }
    ensures line { let p = left_in memory.old.files in
        Filled memory.old.printed.now memory.new.printed.now (pairing p.sheet p.step).line }
    ensures kept { let p = left_in memory.old.files in
        Filled memory.old.stored.now memory.new.stored.now
        (unwrap_or (pairing p.sheet p.step).stored []) }
    ensures serves { let p = left_in memory.old.files in
        IfSome (pairing p.sheet p.step).stored (Serves p) }
    ensures same_line { memory.new.printed.ghost_name ≡ memory.old.printed.ghost_name }
    ensures same_kept { memory.new.stored.ghost_name ≡ memory.old.stored.ghost_name }
{
    match pair_plan(tables, near, bytes, memory) {
        Ok(ending) => ending,
        Err(never) => match never {},
    }
}
