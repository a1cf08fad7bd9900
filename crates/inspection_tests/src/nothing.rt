// A filter that strikes nothing.
ghost use Rattle.inspection_tests.specs.Nothing.{no_test, nothing_lawful};

use filters::{Filter, Test};

#[derive(Clone, Copy)]
pub(crate) struct Nothing;

impl Filter for Nothing {
    ghost struck = { λ f. no_test };

    ghost lawful = { λ f. nothing_lawful };

    fn strikes(&self, _test: &Test) -> bool {
        false
    }
}
