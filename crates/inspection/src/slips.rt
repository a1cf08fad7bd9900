// Several reviewers at the same lists: each entry goes to one at a time, by a slip.
ghost use Rattle.std.specs.Prelude.{◌≡◌};
ghost use Rattle.inspection.specs.Slips.{TakesFrom, HandsInto, Takes, HandsIn, mark_of};

use crate::entries::Entry;
use crate::faults::{ReturnFault, TakingFault};
use crate::lists::{List, Lists};
use crate::marks::Mark;
use motion::Kind;

/// A taken entry, for its reviewer to hand in. It is no `Drop`: a program that lets one go is
/// refused by the compiler.
#[must_use]
pub struct Slip {
    list: Kind,
    entry: u32,
    reviewer: u8,
}

/// As what a slip is handed in.
#[derive(Clone, Copy, Debug, PartialEq, Eq)]
pub enum Handed {
    /// Anyone may take the entry again.
    Free,
    /// It is done.
    Seen,
}

/// A slip that was not accepted, and why: it stays with its reviewer.
#[must_use]
pub struct RefusedSlip {
    pub slip: Slip,
    pub fault: ReturnFault,
}

impl Slip {
    /// Takes a free entry of one of the lists for a reviewer from 1 to 8, who has its slip from
    /// then on. `entry` counts from 0. A fault leaves both lists as they were.
    pub fn take(
        list: Kind,
        entry: u32,
        reviewer: u8,
        lists: &mut Lists<'_>,
    ) -> Result<Slip, TakingFault>
        ensures { Takes list entry reviewer lists.old result lists.new }
    {
        match list {
            Kind::Vf => Slip::take_from(list, entry, reviewer, &mut lists.vf),
            Kind::Ee => Slip::take_from(list, entry, reviewer, &mut lists.ee),
        }
    }

    fn take_from<E: Entry>(
        list: Kind,
        entry: u32,
        reviewer: u8,
        entries: &mut List<'_, E>,
    ) -> Result<Slip, TakingFault>
        ensures { TakesFrom list entry reviewer
            entries.old result entries.new }
    {
        if reviewer < 1 || reviewer > 8 {
            return Err(TakingFault::NoSuchReviewer(reviewer));
        }
        let Some(mark) = entries.mark(entry as usize) else {
            return Err(TakingFault::NoSuchEntry(entry));
        };
        if !mark.is_free() {
            return Err(TakingFault::NotFree(entry));
        }
        entries.set_mark(entry as usize, Mark::Taken(reviewer));
        Ok(Slip {
            list,
            entry,
            reviewer,
        })
    }

    /// Hands the slip in: its entry is free again, or seen. At a fault both lists are left as they
    /// were, and the slip comes back.
    pub fn hand_in(self, how: Handed, lists: &mut Lists<'_>) -> Result<(), RefusedSlip>
        ensures { HandsIn self how lists.old result lists.new }
    {
        match self.list {
            Kind::Vf => self.hand_into(how, &mut lists.vf),
            Kind::Ee => self.hand_into(how, &mut lists.ee),
        }
    }

    fn hand_into<E: Entry>(self, how: Handed, entries: &mut List<'_, E>) -> Result<(), RefusedSlip>
        ensures { HandsInto self how entries.old result entries.new }
    {
        let entry = self.entry;
        let Some(mark) = entries.mark(entry as usize) else {
            let fault = ReturnFault::NoSuchEntry(entry);
            return Err(RefusedSlip { slip: self, fault });
        };
        if !mark.is_taken_by(self.reviewer) {
            let fault = ReturnFault::NotTaken(entry);
            return Err(RefusedSlip { slip: self, fault });
        }
        entries.set_mark(entry as usize, how.mark());
        self.void();
        Ok(())
    }

    /// Ends a slip that has outlived its lists. It changes no mark.
    pub fn void(self) {
        let Slip {
            list: _,
            entry: _,
            reviewer: _,
        } = self;
    }

    /// What stands on it: the list, the entry's number, from 0, and the reviewer.
    pub fn read(&self) -> (Kind, u32, u8)
        ensures { let x = self.now in result ≡ (x.list, x.entry, x.reviewer) }
    {
        (self.list, self.entry, self.reviewer)
    }
}

impl Handed {
    fn mark(self) -> Mark
        ensures { result ≡ mark_of self }
    {
        match self {
            Handed::Free => Mark::Free,
            Handed::Seen => Mark::Seen,
        }
    }
}
