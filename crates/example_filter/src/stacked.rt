// A filter for film in a stack: one feature stays below the other.
ghost use Rattle.std.specs.Prelude.{◌≡◌};
ghost use Rattle.motion.specs.Vectors.{◌-ᵛ◌};
ghost use Rattle.example_filter.specs.Stacked.{down, lower, stacked_set};
ghost use Rattle.example_filter.specs.StackedLaws.{stacked-lawful};

use filters::{Filter, Test};
use motion::{Kind, Moving, Shape, V3};

/// Strikes where each point of the first feature is lower than each of the second, at the start and
/// at the end.
#[derive(Clone, Copy)]
pub struct Stacked;

impl Filter for Stacked {
    ghost struck = { λ f. stacked_set };

    ghost lawful = { λ f. stacked-lawful };

    fn strikes(&self, test: &Test) -> bool {
        is_stacked(test.shape)
    }
}

fn is_stacked(t: Shape) -> bool
    ensures { result ≡ stacked_set t }
{
    match t.kind {
        Kind::Vf => is_lower(t.p, t.a) && is_lower(t.p, t.b) && is_lower(t.p, t.c),
        Kind::Ee => {
            is_lower(t.b, t.a) && is_lower(t.b, t.p) && is_lower(t.c, t.a) && is_lower(t.c, t.p)
        }
    }
}

fn is_lower(m: Moving, n: Moving) -> bool
    ensures { result ≡ lower m n }
{
    is_under(m.start, n.start) && is_under(m.end, n.end)
}

fn is_under(u: V3, v: V3) -> bool
    ensures { result ≡ down (u -ᵛ v) }
{
    u.z < v.z
}
