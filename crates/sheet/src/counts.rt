// How many points and faces: those above a line, or those that there is room for.
ghost use Rattle.std.specs.Prelude.{◌≡◌, IsTrue};
ghost use Rattle.sheet.specs.inner.Passes.{widest};
ghost use Rattle.sheet.specs.Sheet.{counting, has_room};

use crate::lines::Element;

#[derive(Clone, Copy)]
pub(crate) struct RowCounts {
    pub(crate) points: u16,
    pub(crate) faces: u16,
}

impl RowCounts {
    pub(crate) const NONE: RowCounts = RowCounts {
        points: 0,
        faces: 0,
    };

    /// Whether this is room for the row of `element` after those of `above`.
    pub(crate) fn has_room(self, element: Element, above: RowCounts) -> bool
        ensures { result ≡ has_room self above element }
    {
        match element {
            Element::Nothing => true,
            Element::Point(_) => above.points < self.points,
            Element::Face(_) => above.faces < self.faces,
        }
    }

    /// These and the row of `element`.
    pub(crate) fn counting(self, element: Element) -> RowCounts
        requires { IsTrue (has_room widest self element) }
        ensures { result ≡ counting self element }
    {
        match element {
            Element::Nothing => self,
            Element::Point(_) => RowCounts {
                points: self.points + 1,
                faces: self.faces,
            },
            Element::Face(_) => RowCounts {
                points: self.points,
                faces: self.faces + 1,
            },
        }
    }
}
