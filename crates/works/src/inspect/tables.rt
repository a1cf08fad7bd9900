// Tables and buffers of a run.
ghost use Rattle.std.specs.Prelude.{◌≡◌, ◌%◌, length};

use plan::PlanTables;

/// Bytes of the pairs that are read at once: a whole number of pairs.
const PAIRS: usize = 16_384;

/// What a run needs of memory, whatever the plan: whoever calls lends it.
#[derive(Drop)]
pub struct Tables {
    pub(crate) plan: PlanTables,
    pub(crate) pairs: [u8; PAIRS],
    ghost whole_pairs: { length pairs % 4 ≡ 0 },
}

impl Tables {
    /// Tables of the full limits, for any plan.
    pub fn new() -> Tables {
        Tables {
            plan: PlanTables::new(),
            pairs: [0; PAIRS],
        }
    }
}
