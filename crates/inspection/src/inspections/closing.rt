// Closing.
ghost use Rattle.std.specs.Prelude.{◌≡◌};
ghost use Rattle.inspection.specs.Tallies.{tally_in};
ghost use Rattle.motion.specs.declared.shapes.Kind.TheVariants.{Vf, Ee};

use super::Inspection;
use crate::classes::{Counts, Tally};
use filters::Filter;
use sheet::Draft;

/// An inspection that is over: its counts, and what it was opened with.
#[derive(Drop)]
pub struct Closed<F> {
    draft: Draft,
    filter: F,
    tallies: [Tally; 2],
}

impl<F: Filter> Inspection<F> {
    /// Closes it: the counts stay to be told, and the draft can be opened again.
    pub fn close(self) -> Closed<F>
        ensures draft { result.draft ≡ self.draft }
        ensures filter { result.filter ≡ self.filter }
        ensures tallies { result.tallies ≡ self.tallies }
    {
        Closed {
            draft: self.draft,
            filter: self.filter,
            tallies: self.tallies,
        }
    }
}

impl<F> Closed<F> {
    /// The eight counts.
    pub fn counts(&self) -> Counts
        ensures vf { result.vf ≡ tally_in Vf self.now.tallies }
        ensures ee { result.ee ≡ tally_in Ee self.now.tallies }
    {
        Counts::of(&self.tallies)
    }

    /// Gives back the draft and the filter.
    pub fn into_draft(self) -> (Draft, F)
        ensures draft { result.0 ≡ self.draft }
        ensures filter { result.1 ≡ self.filter }
    {
        (self.draft, self.filter)
    }
}
