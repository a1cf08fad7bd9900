// A filter that holds a reference to another, of any kind.
use filters::{Filter, Test};

/// Strikes what the filter strikes that it was lent.
#[derive(Clone, Copy)]
pub struct Lent<'a, F> {
    pub filter: &'a F,
}

impl<'a, F: Filter> Filter for Lent<'a, F> {
    ghost struck = { λ f. F.Filter.struck f.filter.now };

    ghost lawful = { λ f. F.Filter.lawful f.filter.now };

    fn strikes(&self, test: &Test) -> bool {
        self.filter.strikes(test)
    }
}
