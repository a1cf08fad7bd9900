// The tests that are made, by class.
ghost use Rattle.std.specs.Prelude.{◌≡◌};
ghost use Rattle.verdicts.specs.Draws.{drawn_beside, side};

use crate::draws::Draws;
use motion::{Moving, Shape, V3};

#[derive(Clone, Copy)]
pub enum Family {
    Uniform,
    Grazing,
    Coplanar,
    Far,
    Corners,
    Equal,
    Limits,
}

impl Family {
    pub(crate) fn name(self) -> &'static str {
        match self {
            Family::Uniform => "uniform",
            Family::Grazing => "grazing",
            Family::Coplanar => "coplanar",
            Family::Far => "far",
            Family::Corners => "corners",
            Family::Equal => "equal",
            Family::Limits => "limits",
        }
    }

    fn scale(self) -> u8 {
        match self {
            Family::Limits => 6,
            _ => 0,
        }
    }

    fn position(self, first: bool, draws: &mut Draws) -> V3 {
        match self {
            Family::Uniform | Family::Equal => V3 {
                x: draws.around(4096),
                y: draws.around(4096),
                z: draws.around(4096),
            },
            Family::Grazing => V3 {
                x: draws.around(4096),
                y: draws.around(4096),
                z: draws.around(8),
            },
            Family::Coplanar => V3 {
                x: draws.around(4096),
                y: draws.around(4096),
                z: draws.around(0),
            },
            Family::Far => V3 {
                x: beside(first, draws.next()),
                y: draws.around(4096),
                z: draws.around(4096),
            },
            Family::Corners => corner(4096, draws),
            Family::Limits => corner(262144, draws),
        }
    }

    fn moving(self, first: bool, draws: &mut Draws) -> Moving {
        Moving {
            start: self.position(first, draws),
            end: self.position(first, draws),
        }
    }
}

/// To the right of zero for a point of the first feature, else not.
fn beside(first: bool, n: u64) -> i64
    ensures { result ≡ drawn_beside first n }
{
    if first {
        (n % 4096) as i64 + 1
    } else {
        -((n % 4097) as i64)
    }
}

fn corner(far: u32, draws: &mut Draws) -> V3 {
    V3 {
        x: side(far, draws.next()),
        y: side(far, draws.next()),
        z: side(far, draws.next()),
    }
}

fn side(far: u32, n: u64) -> i64
    ensures { result ≡ side far n }
{
    let far = far as i64;
    if n % 2 == 1 { far } else { -far }
}

/// Test number i of a class: VF where i is even, else EE.
pub(crate) fn sample(family: Family, i: u32, draws: &mut Draws) -> Shape {
    let vf = i % 2 == 0;
    let one = family.moving(true, draws);
    let two = family.moving(!vf, draws);
    let three = family.moving(false, draws);
    let four = family.moving(false, draws);
    let third = match family {
        Family::Equal => one,
        _ => three,
    };
    if vf {
        Shape::vf(one, two, third, four, family.scale())
    } else {
        Shape::ee(one, two, third, four, family.scale())
    }
}
