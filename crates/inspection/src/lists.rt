// Entries in the front of a table that the caller lends.
ghost use Rattle.std.specs.Prelude.{◌≤◌, length};

use crate::entries::{Entry, is_among};
use crate::faults::StandingFault;
use crate::marks::{Mark, Marked, Standing};
use crate::names::{EeName, VfName};
use std::marker::Model;

/// A list over a lent table: its entries stand in the table's front, and the rest of it is room.
#[derive(Drop)]
pub struct List<'a, E> {
    table: &'a mut [Marked<E>],
    len: usize,
    ghost fits: { len ≤ length table.now },
}

impl<'a, E> Model for List<'a, E> {
    ghost use Rattle.std.specs.Prelude.{take, drop};
    ghost use Rattle.inspection.specs.Lists.{Contents, names, marks};

    ghost Value = { Contents E };

    ghost view = { λ l. record {
      entries = names (take l.len l.table.now);
      marks = marks (take l.len l.table.now);
      rest = drop l.len l.table.now;
      lender = l.table.ghost_name;
    } };
}

impl<'a, E: Entry> List<'a, E> {
    ghost use Rattle.std.specs.Prelude.{◌≡◌, ◌↔◌, ◌+◌, ◌<◌, ◌++◌, [], ◌∷◌, IsTrue, is_none, count_by, nat_le, slice_get};
    ghost use Rattle.inspection.specs.Marks.{is_taken};
    ghost use Rattle.inspection.specs.Slips.{marked_as, StandingAnswer};
    ghost use Rattle.inspection.specs.Lists.{empty_over, names, marks, has, without_entries};
    ghost use Rattle.inspection.specs.inner.Extending.{extended};

    /// An empty list over a table.
    pub fn new(table: &'a mut [Marked<E>]) -> List<'a, E>
        ensures { result ≡ empty_over table.old table.entry.ghost_name }
    {
        List { table, len: 0 }
    }

    /// The places of the entries, in their order.
    pub fn places(&self) -> &[Marked<E>]
        ensures names { names result.now ≡ self.now.entries }
        ensures marks { marks result.now ≡ self.now.marks }
    {
        &self.table[..self.len]
    }

    /// How many entries there are.
    pub fn len(&self) -> usize
        ensures { result ≡ length self.now.entries }
    {
        self.places().len()
    }

    /// Whether the list is empty.
    pub fn is_empty(&self) -> bool
        ensures { IsTrue result ↔ (length self.now.entries ≡ 0) }
    {
        self.len == 0
    }

    /// How many more entries there is room for.
    pub fn room(&self) -> usize
        ensures { result ≡ length self.now.rest }
    {
        self.table.len() - self.len
    }

    /// The entry with this number, from 0.
    pub fn get(&self, i: usize) -> Option<E>
        ensures { result ≡ slice_get self.now.entries i }
    {
        self.places().get(i).map(|place| place.name)
    }

    /// Whether an entry is the same as this one.
    #[tactic(auto, using(crate::proofs::Places::held_by_name))]
    pub fn holds(&self, e: &E) -> bool
        ensures { result ≡ has E.same e.now self.now.entries }
    {
        is_among(&Marked::new(*e), self.places())
    }

    /// Whether an entry is free, taken or seen; by whom it is taken is told to nobody. `entry`
    /// counts from 0.
    pub fn standing(&self, entry: u32) -> Result<Standing, StandingFault>
        ensures { StandingAnswer entry self.now result }
    {
        match self.mark(entry as usize) {
            Some(mark) => Ok(mark.standing()),
            None => Err(StandingFault::NoSuchEntry(entry)),
        }
    }

    /// How many entries are taken.
    pub(crate) fn taken(&self) -> usize
        ensures { result ≡ count_by is_taken self.now.marks }
    {
        self.places()
            .iter()
            .filter(|place| place.mark.is_taken())
            .count()
    }

    /// The mark of the entry with this number.
    pub(crate) fn mark(&self, i: usize) -> Option<Mark>
        ensures mark { result ≡ slice_get self.now.marks i }
        ensures none { is_none result ≡ nat_le (length self.now.entries) i }
    {
        self.places().get(i).map(|place| place.mark)
    }

    /// Gives the entry with this number a mark.
    pub(crate) fn set_mark(&mut self, i: usize, mark: Mark)
        requires { i < length self.old.entries }
        ensures { self.new ≡ marked_as mark i self.old }
    {
        let places = &mut *self.table;
        places[i].mark = mark;
    }

    /// No entries; the table is as it was.
    #[tactic(auto, using(crate::proofs::Places::whole_table))]
    pub(crate) fn clear(&mut self)
        ensures { self.new ≡ without_entries self.old }
    {
        self.len = 0;
    }

    /// Puts entries behind those that stand here, all of them free.
    pub(crate) fn extend(&mut self, new: &[E])
        requires { length new.now ≤ length self.old.rest }
        ensures { self.new ≡ extended new.now self.old }
    {
        for e in new {
            self.push(*e);
        }
    }

    /// Puts an entry behind those that stand here.
    fn push(&mut self, e: E)
        requires { 0 < length self.old.rest }
        ensures { self.new ≡ extended (e ∷ []) self.old }
    {
        self.table[self.len] = Marked::new(e);
        self.len += 1;
    }
}

/// The lists of an inspection, one for each kind of test.
#[derive(Drop)]
pub struct Lists<'a> {
    pub vf: List<'a, VfName>,
    pub ee: List<'a, EeName>,
}

impl<'a> Lists<'a> {
    ghost use Rattle.std.specs.Prelude.{◌≡◌};
    ghost use Rattle.inspection.specs.Lists.{empty_over};

    /// An empty list over each table.
    pub fn new(vf: &'a mut [Marked<VfName>], ee: &'a mut [Marked<EeName>]) -> Lists<'a>
        ensures vf { result.vf ≡ empty_over vf.old vf.entry.ghost_name }
        ensures ee { result.ee ≡ empty_over ee.old ee.entry.ghost_name }
    {
        Lists {
            vf: List::new(vf),
            ee: List::new(ee),
        }
    }
}
