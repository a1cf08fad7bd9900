// The tree over a run of boxes.
ghost use Rattle.std.specs.Prelude.{◌≡◌, ◌+◌, ◌*◌, ◌/◌, ◌<◌, ◌≤◌, length};
ghost use Rattle.near_faces.specs.Trees.{IsTree};

use crate::boxes::SweptBox;

/// A run of face numbers and the least box around theirs. After it stand the trees of the run's
/// halves, first the lower, which at an odd run is the longer.
#[derive(Clone, Copy, Debug, Default, PartialEq, Eq)]
pub struct Node {
    /// The lowest number of the run, and how many there are.
    pub first: u16,
    pub count: u16,
    pub bounds: SweptBox,
}

/// The tree of a run that begins at a face number, in just the places that it needs.
pub(crate) fn build(run: &[SweptBox], first: u16, nodes: &mut [Node])
    requires some { 0 < length run.now }
    requires numbers { first + length run.now ≤ 4096 }
    requires places { length nodes.old + 1 ≡ 2 * length run.now }
    ensures { IsTree first run.now nodes.new }
{
    let n = run.len();
    if n == 1 {
        nodes[0] = Node {
            first,
            count: 1,
            bounds: run[0],
        };
        return;
    }
    let half = lower_half(n);
    let after = 2 * half;
    build(&run[..half], first, &mut nodes[1..after]);
    build(&run[half..], first + half as u16, &mut nodes[after..]);
    let bounds = nodes[1].bounds.join(nodes[after].bounds);
    nodes[0] = Node {
        first,
        count: n as u16,
        bounds,
    };
}

/// How many boxes the lower half of a run has.
pub(crate) fn lower_half(n: usize) -> usize
    ensures { result ≡ (n + 1) / 2 }
{
    n.div_ceil(2)
}
