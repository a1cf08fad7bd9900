// What stands at an entry beside its name.
ghost use Rattle.std.specs.Prelude.{◌≡◌};
ghost use Rattle.std.proofs.lemmas.Cmp.{on_equiv};
ghost use Rattle.inspection.specs.Marks.{new_entry, standing_of, is_free, is_taken, is_taken_by};

use crate::entries::Entry;

/// The mark of an entry. Nothing outside of this crate reads it, and nothing in it tells who has
/// taken an entry.
#[derive(Clone, Copy, Default)]
pub(crate) enum Mark {
    #[default]
    Free,
    /// By the reviewer with this number.
    Taken(u8),
    Seen,
}

/// What anyone may learn of an entry's mark.
#[derive(Clone, Copy, Debug, PartialEq, Eq)]
pub enum Standing {
    Free,
    Taken,
    Seen,
}

/// A place in a list's table: an entry by its name, with its mark.
#[derive(Clone, Copy, Default)]
pub struct Marked<E> {
    pub name: E,
    pub(crate) mark: Mark,
}

impl<E> Marked<E> {
    /// A new entry, which is free.
    pub fn new(name: E) -> Marked<E>
        ensures { result ≡ new_entry name }
    {
        Marked {
            name,
            mark: Mark::Free,
        }
    }
}

/// Whatever their marks are, two are the same as their names are.
impl<E: Entry> Entry for Marked<E> {
    ghost same = { λ x y. E.Entry.same x.name y.name };

    ghost equivalence = { on_equiv (λ x. x.name) E.Entry.equivalence };

    fn is_same(&self, other: &Marked<E>) -> bool {
        self.name.is_same(&other.name)
    }
}

impl Mark {
    pub(crate) fn standing(self) -> Standing
        ensures { result ≡ standing_of self }
    {
        match self {
            Mark::Free => Standing::Free,
            Mark::Taken(_) => Standing::Taken,
            Mark::Seen => Standing::Seen,
        }
    }

    pub(crate) fn is_free(self) -> bool
        ensures { result ≡ is_free self }
    {
        matches!(self, Mark::Free)
    }

    pub(crate) fn is_taken(self) -> bool
        ensures { result ≡ is_taken self }
    {
        matches!(self, Mark::Taken(_))
    }

    pub(crate) fn is_taken_by(self, reviewer: u8) -> bool
        ensures { result ≡ is_taken_by reviewer self }
    {
        match self {
            Mark::Taken(by) => by == reviewer,
            _ => false,
        }
    }
}
