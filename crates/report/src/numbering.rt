// The entries that have a number.
ghost use Rattle.std.specs.Prelude.{◌≡◌, ◌≤◌, length};
ghost use Rattle.inspection.specs.Lists.{names};
ghost use Rattle.report.specs.Reports.{numbered_entries};

use inspection::{Entry, List, Marked};

// the entries have numbers of 32 bits
const ENTRY_LIMIT: usize = 4_294_967_296;

/// The entries that have a number.
#[tactic(auto, using(crate::proofs::Entries::names_numbered), unfolding(crate::specs::Reports::entry_limit))]
pub(crate) fn numbered<'a, E: Entry>(list: &'a List<'_, E>) -> &'a [Marked<E>]
    ensures front { names result.now ≡ numbered_entries list.now.entries }
    ensures limit { length result.now ≤ 4294967296 }
{
    let places = list.places();
    &places[..ENTRY_LIMIT.min(places.len())]
}
