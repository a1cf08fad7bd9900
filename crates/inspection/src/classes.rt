// The classes of tests, and their counts.
ghost use Rattle.std.specs.Prelude.{◌≡◌, ◌+◌, ◌^◌, ◌<◌};
ghost use Rattle.inspection.specs.Tallies.{no_tests, tests_counted, with_one_more, sum_of, tally_in};
ghost use Rattle.motion.specs.declared.shapes.Kind.TheVariants.{Vf, Ee};

use motion::Kind;

/// What became of a test of an offer: the first of shared, struck, repeated and kept that fits.
#[derive(Clone, Copy)]
pub enum Class {
    Kept,
    Struck,
    Shared,
    Repeated,
}

/// How many tests of one kind there were of each class.
#[derive(Clone, Copy, Debug, PartialEq, Eq)]
pub struct Tally {
    pub kept: u32,
    pub struck: u32,
    pub shared: u32,
    pub repeated: u32,
}

/// The counts of both kinds of tests.
#[derive(Clone, Copy, Debug, PartialEq, Eq)]
pub struct Counts {
    pub vf: Tally,
    pub ee: Tally,
}

impl Counts {
    /// Those of an inspection's two tallies.
    pub(crate) fn of(tallies: &[Tally; 2]) -> Counts
        ensures vf { result.vf ≡ tally_in Vf tallies.now }
        ensures ee { result.ee ≡ tally_in Ee tallies.now }
    {
        Counts {
            vf: tallies[Kind::Vf as usize],
            ee: tallies[Kind::Ee as usize],
        }
    }
}

impl Tally {
    /// No tests yet.
    pub(crate) fn none() -> Tally
        ensures { result ≡ no_tests }
    {
        Tally {
            kept: 0,
            struck: 0,
            shared: 0,
            repeated: 0,
        }
    }

    /// One more of a class.
    pub(crate) fn count(&mut self, class: Class)
        requires { tests_counted self.old < 2 ^ 31 }
        ensures { self.new ≡ with_one_more class self.old }
    {
        match class {
            Class::Kept => self.kept += 1,
            Class::Struck => self.struck += 1,
            Class::Shared => self.shared += 1,
            Class::Repeated => self.repeated += 1,
        }
    }

    /// As many more of each class.
    pub(crate) fn add(&mut self, more: Tally)
        requires { tests_counted self.old + tests_counted more < 2 ^ 31 }
        ensures { self.new ≡ sum_of self.old more }
    {
        self.kept += more.kept;
        self.struck += more.struck;
        self.shared += more.shared;
        self.repeated += more.repeated;
    }
}
