// A desk at which reviewers ask for entries: each thing that happens there gets a line.
use crate::lines::{Act, Done, Line};
use inspection::{Handed, Lists, RefusedSlip, Slip, slips_out};
use motion::Kind;
use sheet::Notice;
use std::{io, mem};

/// Both lists, and what came of printing: once a line cannot be printed, none is. So a line that
/// fails keeps no slip from its return.
#[derive(Drop)]
pub(crate) struct Desk<'r, 'a> {
    rt: &'r HostRuntime,
    lists: Lists<'a>,
    printed: io::Result<()>,
}

impl<'r, 'a> Desk<'r, 'a> {
    pub(crate) fn new(rt: &'r HostRuntime, lists: Lists<'a>) -> Desk<'r, 'a> {
        Desk {
            rt,
            lists,
            printed: Ok(()),
        }
    }

    /// How many entries a list has.
    pub(crate) fn entries(&self, list: Kind) -> u32 {
        let len = match list {
            Kind::Vf => self.lists.vf.len(),
            Kind::Ee => self.lists.ee.len(),
        };
        u32::try_from(len).unwrap_or(u32::MAX)
    }

    /// The first reviewer takes an entry, and the second is refused it; the first hands it in as
    /// free, and the second takes it: that slip.
    pub(crate) fn pass_on(&mut self, list: Kind, entry: u32) -> Option<Slip> {
        let first = self.take(list, entry, 1)?;
        if let Some(second) = self.take(list, entry, 2) {
            self.hand_in(second, Handed::Free);
        }
        self.hand_in(first, Handed::Free);
        self.take(list, entry, 2)
    }

    fn take(&mut self, list: Kind, entry: u32, reviewer: u8) -> Option<Slip> {
        match Slip::take(list, entry, reviewer, &mut self.lists) {
            Ok(slip) => {
                self.tell(reviewer, Act::Takes, list, entry, None);
                Some(slip)
            }
            Err(fault) => {
                self.tell(reviewer, Act::Takes, list, entry, Some(fault.notice()));
                None
            }
        }
    }

    /// Hands a slip in; one that is not accepted ends here.
    pub(crate) fn hand_in(&mut self, slip: Slip, how: Handed) {
        let act = match how {
            Handed::Free => Act::Frees,
            Handed::Seen => Act::HasSeen,
        };
        let (list, entry, reviewer) = slip.read();
        match slip.hand_in(how, &mut self.lists) {
            Ok(()) => self.tell(reviewer, act, list, entry, None),
            Err(refused) => {
                let RefusedSlip { slip, fault } = refused;
                self.tell(reviewer, act, list, entry, Some(fault.notice()));
                slip.void();
            }
        }
    }

    /// Tells how each entry of a list stands.
    pub(crate) fn tell_standings(&mut self, list: Kind) {
        for entry in 0..self.entries(list) {
            let standing = match list {
                Kind::Vf => self.lists.vf.standing(entry),
                Kind::Ee => self.lists.ee.standing(entry),
            };
            if let Ok(standing) = standing {
                self.print(Line::Stands(list, entry, standing));
            }
        }
    }

    /// Tells how many slips are out.
    pub(crate) fn tell_out(&mut self) {
        let out = slips_out(&self.lists);
        self.print(Line::Out(out));
    }

    fn tell(&mut self, reviewer: u8, act: Act, list: Kind, entry: u32, fault: Option<Notice>) {
        self.print(Line::Acted(Done {
            reviewer,
            act,
            list,
            entry,
            fault,
        }));
    }

    fn print(&mut self, line: Line) {
        if self.printed.is_ok() {
            self.printed = println!(self.rt; "{line}");
        }
    }

    /// What came of printing.
    pub(crate) fn printed(&mut self) -> io::Result<()> {
        mem::replace(&mut self.printed, Ok(()))
    }
}
