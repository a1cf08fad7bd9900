// How many slips are out.
ghost use Rattle.std.specs.Prelude.{◌≡◌, ℕ, Bool, count_by};
ghost use Rattle.motion.specs.declared.shapes.Shape.{Shape};
ghost use Rattle.inspection.specs.Blind.{Blind, MarksUnread};
ghost use Rattle.inspection.specs.Marks.{is_taken};
ghost use Rattle.inspection.specs.SlipsOut.{NoneLost};

use crate::lists::Lists;

/// How many entries of each list are taken: after a run, how many of its slips are out.
#[derive(Clone, Copy, Debug, PartialEq, Eq)]
pub struct SlipsOut {
    pub vf: usize,
    pub ee: usize,
}

/// How many entries of each list are taken. After a run just so many of its slips are out, also
/// once its inspection is closed; a slip of an earlier opening of the lists is none of them.
///
/// With it comes that none is lost: whatever run ends with these lists, its slips out and the
/// entries taken agree one to one, and whichever of these slips is handed in now is accepted
/// (`none_lost`). No reviewer is told who else has taken an entry (`blind`), and nothing that is
/// asked of an inspection depends on a mark (`unread`).
pub fn slips_out(lists: &Lists<'_>) -> SlipsOut
    ensures vf { result.vf ≡ count_by is_taken lists.now.vf.marks }
    ensures ee { result.ee ≡ count_by is_taken lists.now.ee.marks }
    ensures none_lost { NoneLost lists.now }
    ensures blind { (q : ℕ) → Blind q }
    ensures unread { (set : Shape → Bool) → MarksUnread set }
{
    SlipsOut {
        vf: lists.vf.taken(),
        ee: lists.ee.taken(),
    }
}
