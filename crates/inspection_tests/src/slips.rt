// Several reviewers at the lists of one inspection, which has six VF and nine EE entries.
use crate::nothing::Nothing;
use crate::plans::{Inspected, crossing, open, tables};
use inspection::{
    EeName, Handed, Marked, RefusedSlip, ReturnFault, Slip, SlipsOut, Standing, StandingFault,
    TakingFault, VfName,
};
use motion::Kind;
use std::process::Abort;
use std::test::Fail;

fn all_listed<'t>(
    vf: &'t mut [Marked<VfName>],
    ee: &'t mut [Marked<EeName>],
) -> Result<Inspected<'t, Nothing>, Fail> {
    let mut inspected = open(crossing()?, Nothing, 2, vf, ee)?;
    let _ = inspected.offer(0, 1);
    Ok(inspected)
}

impl Inspected<'_, Nothing> {
    fn taken(&mut self, rt: &impl Abort, list: Kind, entry: u32, reviewer: u8) -> Slip {
        match self.take(list, entry, reviewer) {
            Ok(slip) => slip,
            Err(_) => panic!(rt; "it is not taken"),
        }
    }

    fn expect_not_taken(
        &mut self,
        rt: &impl Abort,
        list: Kind,
        entry: u32,
        reviewer: u8,
        fault: TakingFault,
    ) {
        match self.take(list, entry, reviewer) {
            Ok(slip) => {
                slip.void();
                panic!(rt; "it is taken");
            }
            Err(found) => assert_eq!(rt; found, fault),
        }
    }

    fn expect_handed_in(&mut self, rt: &impl Abort, slip: Slip, how: Handed) {
        if let Err(refused) = self.hand_in(slip, how) {
            let RefusedSlip { slip, fault: _ } = refused;
            slip.void();
            panic!(rt; "it is not accepted");
        }
    }

    /// The slip that is not accepted.
    fn handed_back(
        &mut self,
        rt: &impl Abort,
        slip: Slip,
        how: Handed,
        fault: ReturnFault,
    ) -> Slip {
        match self.hand_in(slip, how) {
            Ok(()) => panic!(rt; "it is accepted"),
            Err(refused) => {
                let RefusedSlip { slip, fault: found } = refused;
                assert_eq!(rt; found, fault);
                slip
            }
        }
    }

    fn expect_standing(&self, rt: &impl Abort, list: Kind, entry: u32, standing: Standing) {
        assert_eq!(rt; self.standing(list, entry), Ok(standing));
    }

    fn expect_out(&self, rt: &impl Abort, vf: usize, ee: usize) {
        assert_eq!(rt; self.slips_out(), SlipsOut { vf, ee });
    }
}

#[test]
fn one_at_a_time(rt: HostRuntime) -> Result<(), Fail> {
    let (mut vf, mut ee) = tables();
    let mut inspected = all_listed(&mut vf, &mut ee)?;
    inspected.expect_lens(&rt, 6, 9);
    inspected.expect_standing(&rt, Kind::Vf, 2, Standing::Free);
    let slip = inspected.taken(&rt, Kind::Vf, 2, 3);
    assert_eq!(rt; slip.read(), (Kind::Vf, 2, 3));
    inspected.expect_standing(&rt, Kind::Vf, 2, Standing::Taken);
    inspected.expect_standing(&rt, Kind::Ee, 2, Standing::Free);
    inspected.expect_not_taken(&rt, Kind::Vf, 2, 4, TakingFault::NotFree(2));
    inspected.expect_not_taken(&rt, Kind::Vf, 2, 3, TakingFault::NotFree(2));
    inspected.expect_out(&rt, 1, 0);
    inspected.expect_handed_in(&rt, slip, Handed::Seen);
    inspected.expect_standing(&rt, Kind::Vf, 2, Standing::Seen);
    inspected.expect_not_taken(&rt, Kind::Vf, 2, 4, TakingFault::NotFree(2));
    inspected.expect_out(&rt, 0, 0);
    Ok(())
}

#[test]
fn handed_in_as_free(rt: HostRuntime) -> Result<(), Fail> {
    let (mut vf, mut ee) = tables();
    let mut inspected = all_listed(&mut vf, &mut ee)?;
    let slip = inspected.taken(&rt, Kind::Ee, 8, 8);
    inspected.expect_handed_in(&rt, slip, Handed::Free);
    inspected.expect_standing(&rt, Kind::Ee, 8, Standing::Free);
    let slip = inspected.taken(&rt, Kind::Ee, 8, 1);
    // who voids a slip early leaves its entry taken
    slip.void();
    inspected.expect_standing(&rt, Kind::Ee, 8, Standing::Taken);
    inspected.expect_out(&rt, 0, 1);
    Ok(())
}

#[test]
fn refused_in_their_order(rt: HostRuntime) -> Result<(), Fail> {
    let (mut vf, mut ee) = tables();
    let mut inspected = all_listed(&mut vf, &mut ee)?;
    inspected.expect_not_taken(&rt, Kind::Vf, 6, 0, TakingFault::NoSuchReviewer(0));
    inspected.expect_not_taken(&rt, Kind::Vf, 0, 9, TakingFault::NoSuchReviewer(9));
    inspected.expect_not_taken(&rt, Kind::Vf, 6, 8, TakingFault::NoSuchEntry(6));
    inspected.expect_not_taken(&rt, Kind::Ee, 9, 1, TakingFault::NoSuchEntry(9));
    let fault = StandingFault::NoSuchEntry(6);
    assert_eq!(rt; inspected.standing(Kind::Vf, 6), Err(fault));
    inspected.expect_out(&rt, 0, 0);
    Ok(())
}

#[test]
fn slips_of_other_lists(rt: HostRuntime) -> Result<(), Fail> {
    let (mut vf, mut ee) = tables();
    let mut here = all_listed(&mut vf, &mut ee)?;
    let (mut vf, mut ee) = tables();
    let mut there = all_listed(&mut vf, &mut ee)?;
    let (mut vf, mut ee) = tables();
    let mut empty = open(crossing()?, Nothing, 2, &mut vf, &mut ee)?;
    let slip = there.taken(&rt, Kind::Vf, 5, 2);
    let slip = empty.handed_back(&rt, slip, Handed::Seen, ReturnFault::NoSuchEntry(5));
    let slip = here.handed_back(&rt, slip, Handed::Seen, ReturnFault::NotTaken(5));
    here.expect_standing(&rt, Kind::Vf, 5, Standing::Free);
    let other = here.taken(&rt, Kind::Vf, 5, 1);
    let slip = here.handed_back(&rt, slip, Handed::Free, ReturnFault::NotTaken(5));
    here.expect_standing(&rt, Kind::Vf, 5, Standing::Taken);
    here.expect_handed_in(&rt, other, Handed::Seen);
    there.expect_handed_in(&rt, slip, Handed::Seen);
    here.expect_out(&rt, 0, 0);
    there.expect_out(&rt, 0, 0);
    Ok(())
}

#[test]
fn marks_decide_nothing(rt: HostRuntime) -> Result<(), Fail> {
    let (mut vf, mut ee) = tables();
    let mut inspected = all_listed(&mut vf, &mut ee)?;
    let slip = inspected.taken(&rt, Kind::Vf, 0, 1);
    inspected.expect_window(&rt, Kind::Vf, 0, Ok(Some((0, 3))));
    inspected.expect_offer(&rt, 1, 0, Ok(()));
    inspected.expect_lens(&rt, 6, 9);
    inspected.expect_standing(&rt, Kind::Vf, 0, Standing::Taken);
    inspected.expect_handed_in(&rt, slip, Handed::Seen);
    inspected.expect_offer(&rt, 0, 1, Ok(()));
    inspected.expect_lens(&rt, 6, 9);
    inspected.expect_standing(&rt, Kind::Vf, 0, Standing::Seen);
    Ok(())
}

#[test]
fn free_once_opened_again(rt: HostRuntime) -> Result<(), Fail> {
    let (mut vf, mut ee) = tables();
    let mut inspected = all_listed(&mut vf, &mut ee)?;
    let slip = inspected.taken(&rt, Kind::Vf, 0, 1);
    slip.void();
    // the same tables, with their old marks
    let inspected = all_listed(&mut vf, &mut ee)?;
    inspected.expect_lens(&rt, 6, 9);
    inspected.expect_standing(&rt, Kind::Vf, 0, Standing::Free);
    inspected.expect_out(&rt, 0, 0);
    Ok(())
}
