// What the work is done in.

use near_faces::Node;
use plan::PlanTables;
use sheet::FACE_LIMIT;

/// Nodes of the tree over the faces of the largest sheet.
pub const NODE_LIMIT: usize = 2 * FACE_LIMIT as usize - 1;

/// As many pairs as an inspection accepts.
pub const PAIR_LIMIT: usize = 1_000_000;

/// The length of so many pairs in bytes.
pub const PAIR_BYTES: usize = 4 * PAIR_LIMIT;

/// Tables of the full limits: for a plan, and for the tree over its faces.
#[derive(Drop)]
pub struct Tables {
    pub(crate) plan: PlanTables,
    pub(crate) nodes: [Node; NODE_LIMIT],
}

impl Tables {
    pub fn new() -> Tables {
        Tables {
            plan: PlanTables::new(),
            nodes: [Node::default(); NODE_LIMIT],
        }
    }
}
