// Small plans, and inspections of them.
use filters::{Earliest, Filter};
use inspection::{
    Counts, EeName, Handed, Inspection, Lists, Marked, OfferFault, Offering, OpeningFault,
    RefusedSlip, Slip, SlipsOut, Standing, StandingFault, TakingFault, Tally, VfName, WindowFault,
    slips_out,
};
use motion::Kind;
use sheet::{Coords, Draft, Face, Point, read_sheet};
use std::process::Abort;
use std::test::Fail;

/// A draft with its tables.
#[derive(Drop)]
pub(crate) struct Plan {
    pub draft: Draft,
    pub points: [Point; 6],
    pub faces: [Face; 2],
}

fn read(text: &str) -> Result<Plan, Fail> {
    let mut points = [Point::default(); 6];
    let mut faces = [Face::default(); 2];
    match read_sheet(text.as_bytes(), &mut points, &mut faces) {
        Ok(draft) => Ok(Plan {
            draft,
            points,
            faces,
        }),
        Err(_) => Err(Fail::new("the sheet is refused")),
    }
}

/// Two faces that have no point in common; a corner of the second sinks through the first.
pub(crate) fn crossing() -> Result<Plan, Fail> {
    let mut plan = read(
        "v 0 0 0\nv 4 0 0\nv 0 4 0\nv 1 1 1\nv 1 1 9\nv 2 1 9\nf 1 2 3\nf 4 5 6\n",
    )?;
    plan.points[3].end = Coords { x: 1, y: 1, z: -1 };
    Ok(plan)
}

/// The first face turns while a corner of the second passes by: depth 0 passes that test, and depth
/// 1 strikes it.
pub(crate) fn turning() -> Result<Plan, Fail> {
    let mut plan = read(
        "v 0 0 0\nv 1 0 0\nv 0 1 0\nv 2 0 2\nv 50 50 50\nv 60 50 50\nf 1 2 3\nf 4 5 6\n",
    )?;
    plan.points[1].end = Coords { x: 0, y: 0, z: 1 };
    plan.points[3].end = Coords { x: -2, y: 0, z: 0 };
    Ok(plan)
}

/// Two faces with a common edge.
pub(crate) fn hinged() -> Result<Plan, Fail> {
    read("v 0 0 0\nv 4 0 0\nv 0 4 0\nv 4 4 0\nf 1 2 3\nf 2 4 3\n")
}

/// An inspection of a plan, with the plan's tables and its lists over lent ones.
///
/// Its methods have no contracts: the tests compare what comes.
#[derive(Drop)]
pub(crate) struct Inspected<'t, F> {
    points: [Point; 6],
    faces: [Face; 2],
    pub inspection: Inspection<F>,
    lists: Lists<'t>,
}

/// Opens an inspection of a plan.
pub(crate) fn open<'t, F: Filter + Drop>(
    plan: Plan,
    filter: F,
    depth: u8,
    vf_table: &'t mut [Marked<VfName>],
    ee_table: &'t mut [Marked<EeName>],
) -> Result<Inspected<'t, F>, Fail> {
    let Plan {
        draft,
        points,
        faces,
    } = plan;
    let mut lists = Lists::new(vf_table, ee_table);
    match Inspection::open(draft, filter, depth, &mut lists) {
        Ok(inspection) => Ok(Inspected {
            points,
            faces,
            inspection,
            lists,
        }),
        Err(_) => Err(Fail::new("the opening is refused")),
    }
}

impl<F: Filter + Drop> Inspected<'_, F> {
    pub(crate) fn offer(&mut self, one: u16, other: u16) -> Result<(), OfferFault> {
        let what = Offering::Faces(one, other);
        self.inspection
            .offer(&self.points, &self.faces, &mut self.lists, what)
    }

    /// Offers two faces over other tables.
    pub(crate) fn offer_over(
        &mut self,
        points: &[Point],
        faces: &[Face],
        what: Offering,
    ) -> Result<(), OfferFault> {
        self.inspection.offer(points, faces, &mut self.lists, what)
    }

    pub(crate) fn counts(&self) -> Counts {
        self.inspection.findings(&self.lists)
    }

    pub(crate) fn vf_entry(&self, entry: u32) -> Option<VfName> {
        self.lists.vf.get(entry as usize)
    }

    pub(crate) fn take(
        &mut self,
        list: Kind,
        entry: u32,
        reviewer: u8,
    ) -> Result<Slip, TakingFault> {
        Slip::take(list, entry, reviewer, &mut self.lists)
    }

    pub(crate) fn hand_in(&mut self, slip: Slip, how: Handed) -> Result<(), RefusedSlip> {
        slip.hand_in(how, &mut self.lists)
    }

    pub(crate) fn standing(&self, list: Kind, entry: u32) -> Result<Standing, StandingFault> {
        match list {
            Kind::Vf => self.lists.vf.standing(entry),
            Kind::Ee => self.lists.ee.standing(entry),
        }
    }

    pub(crate) fn slips_out(&self) -> SlipsOut {
        slips_out(&self.lists)
    }

    pub(crate) fn set_depth(&mut self, depth: u8) -> Result<(), OpeningFault> {
        self.inspection.set_depth(depth)
    }

    pub(crate) fn expect_offer(
        &mut self,
        rt: &impl Abort,
        one: u16,
        other: u16,
        answer: Result<(), OfferFault>,
    ) {
        assert_eq!(rt; self.offer(one, other), answer);
    }

    /// The lists have so many entries.
    pub(crate) fn expect_lens(&self, rt: &impl Abort, vf: usize, ee: usize) {
        assert_eq!(rt; self.lists.vf.len(), vf);
        assert_eq!(rt; self.lists.ee.len(), ee);
    }

    pub(crate) fn expect_vf_entry(&self, rt: &impl Abort, entry: u32, name: VfName) {
        assert_eq!(rt; self.vf_entry(entry), Some(name));
    }

    pub(crate) fn expect_counts(&self, rt: &impl Abort, vf: Tally, ee: Tally) {
        assert_eq!(rt; self.counts(), Counts { vf, ee });
    }

    /// The window of an entry over such tables.
    fn window_over(
        &self,
        points: &[Point],
        faces: &[Face],
        kind: Kind,
        entry: u32,
    ) -> Result<Option<(u8, u8)>, WindowFault> {
        match kind {
            Kind::Vf => self.inspection.window(points, faces, &self.lists.vf, entry),
            Kind::Ee => self.inspection.window(points, faces, &self.lists.ee, entry),
        }
    }

    pub(crate) fn expect_window(
        &self,
        rt: &impl Abort,
        kind: Kind,
        entry: u32,
        window: Result<Option<(u8, u8)>, WindowFault>,
    ) {
        let found = self.window_over(&self.points, &self.faces, kind, entry);
        assert_eq!(rt; found, window);
    }

    /// The earliest part of an entry over such tables.
    fn earliest_over(
        &self,
        points: &[Point],
        faces: &[Face],
        kind: Kind,
        entry: u32,
    ) -> Result<Earliest, WindowFault> {
        match kind {
            Kind::Vf => self
                .inspection
                .earliest(points, faces, &self.lists.vf, entry),
            Kind::Ee => self
                .inspection
                .earliest(points, faces, &self.lists.ee, entry),
        }
    }

    pub(crate) fn expect_earliest(
        &self,
        rt: &impl Abort,
        kind: Kind,
        entry: u32,
        earliest: Result<Earliest, WindowFault>,
    ) {
        let found = self.earliest_over(&self.points, &self.faces, kind, entry);
        assert_eq!(rt; found, earliest);
    }

    /// The earliest part of an entry over other tables is refused.
    pub(crate) fn expect_earliest_fault(
        &self,
        rt: &impl Abort,
        points: &[Point],
        faces: &[Face],
        kind: Kind,
        entry: u32,
        fault: WindowFault,
    ) {
        let found = self.earliest_over(points, faces, kind, entry);
        assert_eq!(rt; found, Err(fault));
    }

    /// The window of an entry over other tables is refused.
    pub(crate) fn expect_window_fault(
        &self,
        rt: &impl Abort,
        points: &[Point],
        faces: &[Face],
        kind: Kind,
        entry: u32,
        fault: WindowFault,
    ) {
        let found = self.window_over(points, faces, kind, entry);
        assert_eq!(rt; found, Err(fault));
    }
}

/// As many places as two faces have tests.
pub(crate) fn tables() -> ([Marked<VfName>; 6], [Marked<EeName>; 9]) {
    ([Marked::default(); 6], [Marked::default(); 9])
}

/// Kept, struck, shared and repeated.
pub(crate) fn tally(kept: u32, struck: u32, shared: u32, repeated: u32) -> Tally {
    Tally {
        kept,
        struck,
        shared,
        repeated,
    }
}
