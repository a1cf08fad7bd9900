// What a filter is.
ghost use Rattle.std.specs.Prelude.{◌≡◌, Bool};
ghost use Rattle.motion.specs.declared.shapes.Shape.{Shape};
ghost use Rattle.motion.specs.Laws.{Lawful};

use crate::tests::Test;

/// A filter discards tests whose features surely stay apart. It means a set of tests and owes two
/// laws about it, nothing else.
pub trait Filter {
    // the tests that it strikes
    ghost struck: { Self → Shape → Bool };

    // what an `impl` has to show: the tests of the set stay apart, and it has both halves of each
    ghost lawful: { (f : Self) → Lawful (struck f) };

    /// Whether the test is struck. It turns no test away, and asking changes nothing.
    fn strikes(&self, test: &Test) -> bool
        ensures { result ≡ struck self.now test.now.shape };
}
