// The mathematics, as the contracts of functions.
ghost use Rattle.std.specs.Prelude.{◌≡◌, ℕ, Bool, map};
ghost use Rattle.motion.specs.declared.shapes.Shape.{Shape};
ghost use Rattle.motion.specs.Laws.{Lawful};
ghost use Rattle.motion.specs.Box.{box_set};
ghost use Rattle.motion.specs.Slab.{slab_set, ListsAllDirections};
ghost use Rattle.motion.specs.Plane.{controls, plane_set, NeverCoplanar};
ghost use Rattle.motion.specs.Rows.{IsPartOf};
ghost use Rattle.motion.specs.Depths.{FindsWindow};
ghost use Rattle.motion.specs.Cases.{values, worked_tests, Cases};

use crate::shapes::Controls;

/// The sets of the three filters keep both laws, what Plane strikes keeps to its side and
/// is never in one plane, Slab's directions are the ones that its rule describes, and it strikes
/// whatever Box strikes.
///
/// For any set, the window is the first and the last subinterval that it lacks, and there is none
/// exactly where it has them all (`windows`).
pub fn laws_hold()
    ensures boxes { Lawful box_set }
    ensures slabs { Lawful slab_set }
    ensures planes { Lawful plane_set }
    ensures never_coplanar { NeverCoplanar }
    ensures directions { ListsAllDirections }
    ensures box_in_slab { IsPartOf box_set slab_set }
    ensures windows { (set : Shape → Bool) → (d : ℕ) → (t : Shape) → FindsWindow set d t }
{}

/// The control values of seven tests, as they were worked out by hand: they are those of the rule.
///
/// Each test comes out by the rules as it should, and the one that touches is not apart (`cases`).
#[tactic(auto, using(crate::proofs::Worked::worked_values))]
pub fn worked_cases() -> [Controls; 7]
    ensures values { result ≡ map controls worked_tests }
    ensures cases { Cases }
{
    [
        values(48, 80, 112, 144),
        values(48, 16, -16, -48),
        values(48, 32, 16, 0),
        values(0, 0, 0, 0),
        values(48, 48, 48, 48),
        values(6, 0, 0, 6),
        values(-48, -16, 16, 48),
    ]
}

fn values(g0: i64, g1: i64, g2: i64, g3: i64) -> Controls
    ensures { result ≡ values g0 g1 g2 g3 }
{
    Controls { g0, g1, g2, g3 }
}
