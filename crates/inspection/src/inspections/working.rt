// A whole inspection from an opening on, by a list of requests.
ghost use Rattle.std.specs.Prelude.{◌≡◌, [], min, length, take, drop, IfOk, IfErr, OnErr};
ghost use Rattle.sheet.specs.Checks.{first_fit, fault_notice};
ghost use Rattle.inspection.specs.Faults.{notice_of_opening};
ghost use Rattle.inspection.specs.Sheets.{sheet_in};
ghost use Rattle.inspection.specs.States.{core_of, state_of, state_at_start};
ghost use Rattle.inspection.specs.Runs.{depth_checks, Run};
ghost use Rattle.inspection.specs.Alike.{AnswersAlike};
ghost use Rattle.inspection.specs.Claims.{WholeClaim};
ghost use Rattle.inspection.specs.Requests.{RequestCall, Calls, history};

use super::{Inspection, Refused};
use crate::lists::Lists;
use crate::requests::{Answer, Request};
use filters::Filter;
use motion::Kind;
use sheet::{Draft, Face, Point};

impl<F: Filter> Inspection<F> {
    /// Makes the call that a request asks for.
    fn answer(
        &mut self,
        points: &[Point],
        faces: &[Face],
        lists: &mut Lists<'_>,
        request: Request,
    ) -> Answer
        ensures call { RequestCall (F.Filter.struck self.old.filter) points.now faces.now
            request result (state_of self.old lists.old) (state_of self.new lists.new) }
        ensures filter { self.new.filter ≡ self.old.filter }
    {
        match request {
            Request::SetDepth(depth) => Answer::DepthSet(self.set_depth(depth)),
            Request::Offer(what) => Answer::Offered(self.offer(points, faces, lists, what)),
            Request::Window(Kind::Vf, entry) => {
                Answer::Window(self.window(points, faces, &lists.vf, entry))
            }
            Request::Window(Kind::Ee, entry) => {
                Answer::Window(self.window(points, faces, &lists.ee, entry))
            }
            Request::Earliest(Kind::Vf, entry) => {
                Answer::Earliest(self.earliest(points, faces, &lists.vf, entry))
            }
            Request::Earliest(Kind::Ee, entry) => {
                Answer::Earliest(self.earliest(points, faces, &lists.ee, entry))
            }
        }
    }
}

/// An inspection that was opened and worked through requests, and how many of them were answered.
#[derive(Drop)]
pub struct Worked<F> {
    pub inspection: Inspection<F>,
    pub answered: usize,
}

/// Opens an inspection and works through requests in their order, as many as there is room for
/// answers. A refusal hands back the draft and the filter, and leaves the lists and the answers.
///
/// Of what came of them nobody can name a touch that is missed: that is the clause `claim`. By any
/// filter that strikes the same tests the same would have come of them: the clause `alike`.
#[tactic(auto, using(crate::proofs::Working::worked_on, crate::proofs::Working::rest_more))]
pub fn inspect<F: Filter>(
    draft: Draft,
    filter: F,
    depth: u8,
    points: &[Point],
    faces: &[Face],
    lists: &mut Lists<'_>,
    requests: &[Request],
    answers: &mut [Answer],
) -> Result<Worked<F>, Refused<F>>
    ensures fault { fault_notice (λ x. notice_of_opening x.fault) result
        ≡ first_fit (depth_checks depth) }
    ensures answered { IfOk result (λ w.
        w.answered ≡ min (length requests.now) (length answers.old)) }
    ensures calls { IfOk result (λ w.
        Calls (F.Filter.struck filter) points.now faces.now
        (take w.answered requests.now) (take w.answered answers.new)
        (state_at_start draft depth lists.old)
        (state_of w.inspection lists.new)) }
    ensures rest { IfOk result (λ w. drop w.answered answers.new ≡ drop w.answered answers.old) }
    ensures filter { IfOk result (λ w. w.inspection.filter ≡ filter) }
    ensures run { IfOk result (λ w.
        Run (F.Filter.struck filter) draft (sheet_in draft points.now faces.now)
        (history depth (take w.answered requests.now) (take w.answered answers.new)) []
        (state_of w.inspection lists.new)) }
    ensures claim { IfOk result (λ w.
        WholeClaim (F.Filter.struck filter) draft (sheet_in draft points.now faces.now)
        (history depth (take w.answered requests.now) (take w.answered answers.new))
        (core_of w.inspection) lists.new.vf.entries lists.new.ee.entries) }
    ensures alike { IfOk result (λ w.
        AnswersAlike (F.Filter.struck filter) points.now faces.now (take w.answered requests.now)
        (state_at_start draft depth lists.old)
        (take w.answered answers.new) (state_of w.inspection lists.new)) }
    ensures draft_back { IfErr result (λ x. x.draft ≡ draft) }
    ensures filter_back { IfErr result (λ x. x.filter ≡ filter) }
    ensures answers_back { OnErr result (answers.new ≡ answers.old) }
    ensures lists_back { OnErr result (lists.new ≡ lists.old) }
{
    let mut inspection = Inspection::open(draft, filter, depth, lists)?;
    let n = requests.len().min(answers.len());
    for i in 0..n {
        answers[i] = inspection.answer(points, faces, lists, requests[i]);
    }
    Ok(Worked {
        inspection,
        answered: n,
    })
}
