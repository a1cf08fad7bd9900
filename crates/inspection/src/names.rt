// The names of tests.
ghost use Rattle.std.specs.Prelude.{◌≡◌};
ghost use Rattle.inspection.specs.Names.{edge_of, ee_name_of, vf_same, vf_same_equiv, ee_same, ee_same_equiv};

use crate::entries::Entry;

/// A VF test, by its point and the number of its face.
#[derive(Clone, Copy, Debug, Default, PartialEq, Eq)]
pub struct VfName {
    pub point: u16,
    pub face: u16,
}

/// An EE test, by the points of its edges: u, v and k, l.
#[derive(Clone, Copy, Debug, Default, PartialEq, Eq)]
pub struct EeName {
    pub u: u16,
    pub v: u16,
    pub k: u16,
    pub l: u16,
}

impl Entry for VfName {
    ghost same = { vf_same };

    ghost equivalence = { vf_same_equiv };

    fn is_same(&self, other: &VfName) -> bool {
        self.point == other.point && self.face == other.face
    }
}

impl Entry for EeName {
    ghost same = { ee_same };

    ghost equivalence = { ee_same_equiv };

    fn is_same(&self, other: &EeName) -> bool {
        self.u == other.u && self.v == other.v && self.k == other.k && self.l == other.l
    }
}

/// An edge, its lower number first.
#[derive(Clone, Copy)]
pub(crate) struct Edge {
    pub first: u16,
    pub second: u16,
}

impl Edge {
    pub(crate) fn between(a: u16, b: u16) -> Edge
        ensures { result ≡ edge_of a b }
    {
        if b < a {
            return Edge {
                first: b,
                second: a,
            };
        }
        Edge {
            first: a,
            second: b,
        }
    }

    /// The test of two edges: the one with the lower first number is u, v.
    pub(crate) fn against(self, other: Edge) -> EeName
        ensures { result ≡ ee_name_of self other }
    {
        let (one, two) = if other.first < self.first {
            (other, self)
        } else {
            (self, other)
        };
        EeName {
            u: one.first,
            v: one.second,
            k: two.first,
            l: two.second,
        }
    }
}
