// The class of each test of an offer.
ghost use Rattle.std.specs.Prelude.{◌≡◌, ◌+◌, ◌≤◌, ◌<◌};
ghost use Rattle.arrayvec.specs.ArrayVec.{array_vec_len};
ghost use Rattle.inspection.specs.Classes.{entries_after_one};

use crate::classes::{Class, Tally};
use crate::entries::is_among;
use crate::lists::List;
use crate::sheets::Rows;
use crate::tests::TestName;
use arrayvec::ArrayVec;
use filters::{Filter, struck_at};

/// How the tests of an offer are judged: over these rows, by a filter at a depth.
#[derive(Drop)]
pub(crate) struct Judge<'a, F> {
    pub rows: Rows<'a>,
    pub filter: &'a F,
    pub depth: u8,
    ghost low: { depth ≤ 6 },
}

impl<'a, F: Filter> Judge<'a, F> {
    ghost use Rattle.std.specs.Prelude.{◌++◌, length};
    ghost use Rattle.inspection.specs.Tallies.{no_tests, tests_counted};
    ghost use Rattle.inspection.specs.Classes.{class_of, entries_after, tally_after};
    ghost use Rattle.inspection.specs.inner.Judges.{rules_of};

    /// Whether the filter strikes a test of the sheet at the depth.
    fn strikes<E: TestName>(&self, e: E) -> bool
        ensures { result ≡ (rules_of F.struck E.naming self.now).struck e }
    {
        let test = e.test(self.rows);
        let Some(struck) = struck_at(self.filter, &test, self.depth) else {
            unreachable!()
        };
        struck
    }

    /// The class of a test: `new` are the entries that the offer adds so far.
    fn class_of<E: TestName>(&self, e: E, list: &List<'_, E>, new: &[E]) -> Class
        ensures { let rules = rules_of F.struck E.naming self.now in
            result ≡ class_of rules (list.now.entries ++ new.now) e }
    {
        if e.is_shared(self.rows) {
            return Class::Shared;
        }
        if self.strikes(e) {
            return Class::Struck;
        }
        if list.holds(&e) || is_among(&e, new) {
            return Class::Repeated;
        }
        Class::Kept
    }

    /// Classes all tests of one kind of an offer: the entries that it adds, and how many there are
    /// of each class.
    pub(crate) fn class_all<E: TestName + Default, const N: usize>(
        &self,
        tests: &[E],
        list: &List<'_, E>,
    ) -> (ArrayVec<E, N>, Tally)
        requires room { length tests.now ≤ N }
        requires few { length tests.now ≤ 9 }
        ensures entries { let rules = rules_of F.struck E.naming self.now in
            list.now.entries ++ result.0.items ≡ entries_after rules list.now.entries tests.now }
        ensures tally { let rules = rules_of F.struck E.naming self.now in
            result.1 ≡ tally_after rules list.now.entries tests.now no_tests }
        ensures total { tests_counted result.1 ≡ length tests.now }
    {
        let mut new = ArrayVec::new();
        let mut tally = Tally::none();
        for e in tests {
            let class = self.class_of(*e, list, new.as_slice());
            tally.count(class);
            push_kept(&mut new, class, *e);
        }
        (new, tally)
    }
}

/// Adds a test to the new entries where it is kept.
fn push_kept<E: Copy, const N: usize>(new: &mut ArrayVec<E, N>, class: Class, e: E)
    requires { array_vec_len new.old < N }
    ensures items { new.new.items ≡ entries_after_one class new.old.items e }
    ensures len { array_vec_len new.new ≤ array_vec_len new.old + 1 }
{
    if let Class::Kept = class {
        new.push(e);
    }
}
