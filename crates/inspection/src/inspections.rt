// An inspection of one step of a sheet: opened, offered faces, and asked.
ghost use Rattle.std.specs.Prelude.{◌≡◌, ◌*◌, ◌<◌, ◌≤◌, ◌++◌, ◌||◌, length, is_none, is_ok, nat_lt, IfOk, IfErr, IfSome, if◌then◌else◌, Some, slice_get};
ghost use Rattle.sheet.specs.Checks.{first_fit, fault_notice};
ghost use Rattle.motion.specs.Depths.{window_at, WindowMeans};
ghost use Rattle.motion.specs.Earliest.{EarliestMeans, first_of};
ghost use Rattle.filters.specs.FirstParts.{earliest_at};
ghost use Rattle.inspection.specs.Faults.{notice_of_opening, notice_of_window};
ghost use Rattle.inspection.specs.Tallies.{tests_counted, tally_in};
ghost use Rattle.inspection.specs.Sheets.{sheet_in, sheet_of_rows};
ghost use Rattle.inspection.specs.inner.Extending.{extended};
ghost use Rattle.inspection.specs.Tests.{vf_naming, ee_naming};
ghost use Rattle.motion.specs.declared.shapes.Kind.TheVariants.{Vf, Ee};
ghost use Rattle.inspection.specs.declared.faults.OfferFault.TheVariants.{ListFull};

use crate::classes::{Counts, Tally};
use crate::classing::Judge;
use crate::faults::{OfferFault, OpeningFault, WindowFault};
use crate::lists::{List, Lists};
use crate::names::{EeName, VfName};
use crate::offerings::Offering;
use crate::offers::check_offer;
use crate::pairs::{ee_tests, vf_tests};
use crate::sheets::Rows;
use crate::tests::TestName;
use arrayvec::ArrayVec;
use filters::{Earliest, Filter, earliest_at, window_at};
use motion::Kind;
use sheet::{Draft, Face, Point};

mod closing;
mod working;

pub use closing::Closed;
pub use working::{Worked, inspect};

/// An inspection of a sheet's step. It holds the draft, so that there is no other of the sheet
/// while it is open.
#[derive(Drop)]
pub struct Inspection<F> {
    draft: Draft,
    filter: F,
    depth: u8,
    // one for each `Kind`
    tallies: [Tally; 2],
    accepted: u32,
    ghost depths: { depth ≤ 6 },
    ghost offers: { accepted ≤ 1000000 },
    ghost vf_few: { tests_counted (tally_in Vf tallies) ≤ 6 * accepted },
    ghost ee_few: { tests_counted (tally_in Ee tallies) ≤ 9 * accepted },
}

/// What a refused opening hands back.
#[derive(Drop)]
pub struct Refused<F> {
    pub draft: Draft,
    pub filter: F,
    pub fault: OpeningFault,
}

/// What a pair's tests come to: the entries that they add to each list, and their tallies.
#[derive(Drop)]
struct PairOutcome {
    vf: ArrayVec<VfName, 6>,
    vf_tally: Tally,
    ee: ArrayVec<EeName, 9>,
    ee_tally: Tally,
}

impl<F: Filter> Inspection<F> {
    ghost use Rattle.inspection.specs.States.{core_of, state_of, core_at_start, emptied, with_counts};
    ghost use Rattle.inspection.specs.Offers.{lacks_rows, OfferCall};
    ghost use Rattle.inspection.specs.inner.Outcomes.{KindOutcome};
    ghost use Rattle.inspection.specs.Windows.{WindowAnswer, EarliestAnswer, window_checks};
    ghost use Rattle.inspection.specs.Runs.{depth_checks, Opened, DepthCall};
    ghost use Rattle.inspection.specs.Claims.{Findings};

    /// Opens an inspection of the draft's sheet, at a depth from 0 to 6: all counts are zero, and
    /// both lists are emptied. A refusal hands back the draft and the filter, and leaves the lists.
    pub fn open(
        draft: Draft,
        filter: F,
        depth: u8,
        lists: &mut Lists<'_>,
    ) -> Result<Inspection<F>, Refused<F>>
        ensures fault { fault_notice (λ x. notice_of_opening x.fault) result
            ≡ first_fit (depth_checks depth) }
        ensures core { IfOk result (λ i. core_of i ≡ core_at_start draft depth) }
        ensures filter { IfOk result (λ i. i.filter ≡ filter) }
        ensures begins { IfOk result (λ i. Opened draft (state_of i lists.new)) }
        ensures draft_back { IfErr result (λ x. x.draft ≡ draft) }
        ensures filter_back { IfErr result (λ x. x.filter ≡ filter) }
        ensures lists { lists.new ≡ (if is_ok result then emptied lists.old else lists.old) }
    {
        if is_too_deep(depth) {
            let fault = OpeningFault::TooDeep(depth);
            return Err(Refused {
                draft,
                filter,
                fault,
            });
        }
        lists.vf.clear();
        lists.ee.clear();
        let tallies = [Tally::none(), Tally::none()];
        Ok(Inspection {
            draft,
            filter,
            depth,
            tallies,
            accepted: 0,
        })
    }

    /// Sets the depth, at any moment. A depth over 6 is refused, and leaves the one that was set.
    pub fn set_depth(&mut self, depth: u8) -> Result<(), OpeningFault>
        ensures call { DepthCall depth (core_of self.old) result (core_of self.new) }
        ensures filter { self.new.filter ≡ self.old.filter }
    {
        if is_too_deep(depth) {
            return Err(OpeningFault::TooDeep(depth));
        }
        self.depth = depth;
        Ok(())
    }

    /// Offers two faces: each of their fifteen tests is classed and counted, and the kept ones are
    /// listed. A fault leaves all as it was. `points` and `faces` are the sheet's tables, and may
    /// have more rows than it.
    pub fn offer(
        &mut self,
        points: &[Point],
        faces: &[Face],
        lists: &mut Lists<'_>,
        what: Offering,
    ) -> Result<(), OfferFault>
        ensures call { OfferCall (F.Filter.struck self.old.filter) points.now faces.now
            what (state_of self.old lists.old) result (state_of self.new lists.new) }
        ensures filter { self.new.filter ≡ self.old.filter }
    {
        let rows = check_offer(&self.draft, points, faces, what, self.accepted)?;
        let new = self.class_pair(rows, lists, what);
        self.accept(&new, lists)
    }

    /// Classes the tests of a pair.
    fn class_pair(&self, rows: Rows<'_>, lists: &Lists<'_>, what: Offering) -> PairOutcome
        ensures vf { KindOutcome vf_naming (F.Filter.struck self.now.filter) self.now.depth
            (sheet_of_rows rows.entry) what lists.now.vf.entries result.vf.items result.vf_tally }
        ensures ee { KindOutcome ee_naming (F.Filter.struck self.now.filter) self.now.depth
            (sheet_of_rows rows.entry) what lists.now.ee.entries result.ee.items result.ee_tally }
    {
        let judge = Judge {
            rows,
            filter: &self.filter,
            depth: self.depth,
        };
        let (vf, vf_tally) = judge.class_all(&vf_tests(rows, what), &lists.vf);
        let (ee, ee_tally) = judge.class_all(&ee_tests(rows, what), &lists.ee);
        PairOutcome {
            vf,
            vf_tally,
            ee,
            ee_tally,
        }
    }

    /// Lists and counts what a pair's tests come to. Where a list has less room than there are new
    /// entries, all is left as it was.
    fn accept(&mut self, new: &PairOutcome, lists: &mut Lists<'_>) -> Result<(), OfferFault>
        requires few { self.old.accepted < 1000000 }
        requires vf { tests_counted new.now.vf_tally ≤ 6 }
        requires ee { tests_counted new.now.ee_tally ≤ 9 }
        ensures room { let vf_short = nat_lt (length lists.old.vf.rest) (length new.now.vf.items) in
            let ee_short = nat_lt (length lists.old.ee.rest) (length new.now.ee.items) in
            result ≡ (if vf_short || ee_short then Err ListFull else Ok tt) }
        ensures vf { let old = lists.old.vf in
            lists.new.vf ≡ (if is_ok result then extended new.now.vf.items old else old) }
        ensures ee { let old = lists.old.ee in
            lists.new.ee ≡ (if is_ok result then extended new.now.ee.items old else old) }
        ensures core { let old = core_of self.old in
            let counted = with_counts new.now.vf_tally new.now.ee_tally old in
            core_of self.new ≡ (if is_ok result then counted else old) }
        ensures filter { self.new.filter ≡ self.old.filter }
    {
        if lists.vf.room() < new.vf.len() || lists.ee.room() < new.ee.len() {
            return Err(OfferFault::ListFull);
        }
        lists.vf.extend(new.vf.as_slice());
        lists.ee.extend(new.ee.as_slice());
        self.count(new.vf_tally, new.ee_tally);
        Ok(())
    }

    /// Counts the tests of an accepted offer.
    fn count(&mut self, vf: Tally, ee: Tally)
        requires few { self.old.accepted < 1000000 }
        requires vf { tests_counted vf ≤ 6 }
        requires ee { tests_counted ee ≤ 9 }
        ensures core { core_of self.new ≡ with_counts vf ee (core_of self.old) }
        ensures filter { self.new.filter ≡ self.old.filter }
    {
        self.tallies[Kind::Vf as usize].add(vf);
        self.tallies[Kind::Ee as usize].add(ee);
        self.accepted += 1;
    }

    /// How many offers were accepted.
    pub fn accepted(&self) -> u32
        ensures { result ≡ self.now.accepted }
    {
        self.accepted
    }

    /// The eight counts. With them comes the claim: whatever run ends here, with these lists,
    /// nobody can name a touch that it missed.
    pub fn findings(&self, lists: &Lists<'_>) -> Counts
        ensures vf { result.vf ≡ tally_in Vf self.now.tallies }
        ensures ee { result.ee ≡ tally_in Ee self.now.tallies }
        ensures claim { Findings (F.Filter.struck self.now.filter)
            (state_of self.now lists.now) }
    {
        Counts::of(&self.tallies)
    }

    /// The first and the last of the 2^depth parts of the step, from 0, that the filter passes of
    /// an entry's test, at the depth now set; none where it strikes each. `entry` counts from 0.
    /// `points` and `faces` are the sheet's tables, and may have more rows than it.
    ///
    /// In each part before the first and after the last the entry's features stay apart; where
    /// there is no window, they do so for the whole step.
    pub fn window<E: TestName>(
        &self,
        points: &[Point],
        faces: &[Face],
        list: &List<'_, E>,
        entry: u32,
    ) -> Result<Option<(u8, u8)>, WindowFault>
        ensures { WindowAnswer E.naming points.now faces.now (core_of self.now)
            list.now entry (F.Filter.struck self.now.filter) result }
    {
        let (e, rows) = self.entry_over(points, faces, list, entry)?;
        Ok(self.window_of(e, rows))
    }

    /// The first of the 2^depth parts of the step, from 0, that the filter passes of an entry's
    /// test, at the depth now set, or none, and how many parts were put to the filter: they are put
    /// to it one after another from the front, and none after the one that it passes. `entry`
    /// counts from 0. The faults are those of `window`.
    ///
    /// It is the first of the window. In each part before it the entry's features stay apart; where
    /// there is none, they do so for the whole step.
    pub fn earliest<E: TestName>(
        &self,
        points: &[Point],
        faces: &[Face],
        list: &List<'_, E>,
        entry: u32,
    ) -> Result<Earliest, WindowFault>
        ensures { EarliestAnswer E.naming points.now faces.now (core_of self.now)
            list.now entry (F.Filter.struck self.now.filter) result }
    {
        let (e, rows) = self.entry_over(points, faces, list, entry)?;
        Ok(self.earliest_of(e, rows))
    }

    /// An entry of a list, and the rows of the sheet, of which its numbers are.
    #[tactic(auto, unfolding(crate::specs::Windows::window_checks))]
    fn entry_over<'a, E: TestName>(
        &self,
        points: &'a [Point],
        faces: &'a [Face],
        list: &List<'_, E>,
        entry: u32,
    ) -> Result<(E, Rows<'a>), WindowFault>
        ensures fault { fault_notice notice_of_window result
            ≡ first_fit (window_checks E.naming points.now faces.now (core_of self.now)
            list.now entry) }
        ensures entry { IfOk result (λ (e, rows).
            slice_get list.now.entries entry ≡ Some e) }
        ensures rows { IfOk result (λ (e, rows).
            sheet_of_rows rows ≡ sheet_in self.now.draft points.now faces.now) }
    {
        let Some(rows) = self.rows(points, faces) else {
            return Err(WindowFault::TableTooShort);
        };
        let Some(e) = list.get(entry as usize) else {
            return Err(WindowFault::NoSuchEntry(entry));
        };
        if !e.is_inside(rows) {
            return Err(WindowFault::NotOfTheSheet(entry));
        }
        Ok((e, rows))
    }

    /// The rows of the sheet, as they lie in tables that may have more; none where one has fewer.
    pub fn rows<'a>(&self, points: &'a [Point], faces: &'a [Face]) -> Option<Rows<'a>>
        ensures none { is_none result ≡ lacks_rows self.now.draft points.now faces.now }
        ensures rows { IfSome result (λ r.
            sheet_of_rows r ≡ sheet_in self.now.draft points.now faces.now) }
    {
        Rows::of(&self.draft, points, faces)
    }

    /// The window of an entry in hand, over the rows of a sheet.
    pub fn window_of<E: TestName>(&self, e: E, rows: Rows<'_>) -> Option<(u8, u8)>
        ensures value { let shape = E.naming.shape (sheet_of_rows rows.entry) e in
            result ≡ window_at (F.Filter.struck self.now.filter) self.now.depth shape }
        ensures meaning { let shape = E.naming.shape (sheet_of_rows rows.entry) e in
            WindowMeans (F.Filter.struck self.now.filter) self.now.depth shape result }
    {
        let test = e.test(rows);
        let Some(window) = window_at(&self.filter, &test, self.depth) else {
            unreachable!()
        };
        window
    }

    /// The earliest part of an entry in hand, over the rows of a sheet.
    pub fn earliest_of<E: TestName>(&self, e: E, rows: Rows<'_>) -> Earliest
        ensures value { let shape = E.naming.shape (sheet_of_rows rows.entry) e in
            result ≡ earliest_at (F.Filter.struck self.now.filter) self.now.depth shape }
        ensures window { let shape = E.naming.shape (sheet_of_rows rows.entry) e in
            let w = window_at (F.Filter.struck self.now.filter) self.now.depth shape in
            result.part ≡ first_of w }
        ensures meaning { let shape = E.naming.shape (sheet_of_rows rows.entry) e in
            EarliestMeans (F.Filter.struck self.now.filter) self.now.depth shape result.part }
    {
        let test = e.test(rows);
        let Some(earliest) = earliest_at(&self.filter, &test, self.depth) else {
            unreachable!()
        };
        earliest
    }
}

fn is_too_deep(depth: u8) -> bool
    ensures { result ≡ nat_lt 6 depth }
{
    depth > 6
}
