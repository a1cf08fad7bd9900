// Shapes in short.
use filters::Test;
use motion::{Moving, Shape, V3};
use std::test::Fail;

pub(crate) fn at(x: i64, y: i64, z: i64) -> V3 {
    V3 { x, y, z }
}

pub(crate) fn moving(start: V3, end: V3) -> Moving {
    Moving { start, end }
}

pub(crate) fn resting(v: V3) -> Moving {
    moving(v, v)
}

/// The point against the resting face (0,0,0), (4,0,0), (0,4,0).
pub(crate) fn over_t(p: Moving) -> Shape {
    Shape::vf(
        p,
        resting(at(0, 0, 0)),
        resting(at(4, 0, 0)),
        resting(at(0, 4, 0)),
        0,
    )
}

pub(crate) fn test_of(shape: Shape) -> Result<Test, Fail> {
    let Some(test) = Test::new(shape) else {
        return Err(Fail::new("the shape makes no test"));
    };
    Ok(test)
}
