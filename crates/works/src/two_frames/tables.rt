// What a run needs of memory.

use near_faces::Node;
use pairing::NODE_LIMIT;

/// Tables of the full limits: for two frames and the step between them, and for the tree over its faces.
#[derive(Drop)]
pub struct Tables {
    pub(crate) frames: frames::Tables,
    pub(crate) nodes: [Node; NODE_LIMIT],
}

impl Tables {
    pub fn new() -> Tables {
        Tables {
            frames: frames::Tables::new(),
            nodes: [Node::default(); NODE_LIMIT],
        }
    }
}
