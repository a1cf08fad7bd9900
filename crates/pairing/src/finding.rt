// Finding the pairs, and storing them.
ghost use Rattle.std.specs.Prelude.{◌≡◌, ◌*◌, ◌≤◌, length, IfOk};
ghost use Rattle.hosts.specs.Writing.{Prints, Writes, writes_of};
ghost use Rattle.sheet.specs.Checks.{first_fit, fault_notice};
ghost use Rattle.inspection.specs.Sheets.{sheet_in};
ghost use Rattle.near_faces.specs.Near.{near_pairs};
ghost use Rattle.near_faces.specs.Searches.{notice_of_search, search_checks};
ghost use Rattle.pairing.specs.Pairings.{node_room, pair_room, paired, pairs_line};
ghost use Rattle.pairing.specs.inner.Tables.{pairing_in};

use crate::lines::pairs_line;
use crate::tables::{NODE_LIMIT, PAIR_BYTES, PAIR_LIMIT};
use crate::writing::put_pairs;
use hosts::{Host, tell};
use near_faces::{Node, Pair, SearchFault, find_near};
use plan::{Ending, tell_fault};
use sheet::{Draft, Face, Point};

/// Finds the near pairs of the sheet in these tables, stores their bytes and tells how many there
/// are; or tells the fault of the search.
#[tactic(auto, using(crate::proofs::Searching::fault_told, crate::proofs::Searching::pairs_told))]
pub(crate) fn pair_sheet<H: Host>(
    draft: &Draft,
    points: &[Point],
    faces: &[Face],
    nodes: &mut [Node; NODE_LIMIT],
    pairs: &mut [Pair; PAIR_LIMIT],
    bytes: &mut [u8; PAIR_BYTES],
    host: &mut H,
) -> Result<Ending, H::Error>
    ensures { let o = pairing_in draft.now points.now faces.now in
        Writes H.does H.fails (writes_of o) o.answer host.old result host.new }
{
    match find_pairs(draft, points, faces, nodes, pairs) {
        Ok(pairs) => store_pairs(draft, pairs, bytes, host),
        Err(fault) => tell_fault(fault.notice(), host),
    }
}

/// The near pairs, which stand in the front of this table then.
pub fn find_pairs<'a>(
    draft: &Draft,
    points: &[Point],
    faces: &[Face],
    nodes: &mut [Node; NODE_LIMIT],
    pairs: &'a mut [Pair; PAIR_LIMIT],
) -> Result<&'a [Pair], SearchFault>
    ensures fault { fault_notice notice_of_search result
        ≡ first_fit (search_checks draft.now points.now faces.now node_room pair_room) }
    ensures found { let s = sheet_in draft.now points.now faces.now in
        IfOk result (λ ps. ps.now ≡ near_pairs s) }
    ensures few { IfOk result (λ ps. length ps.now ≤ pair_room) }
{
    let count = find_near(draft, points, faces, nodes, pairs)?;
    Ok(&pairs[..count])
}

/// Stores the bytes of these pairs, and tells how many there are.
#[tactic(auto, using(hosts::proofs::Writing::store_cut, hosts::proofs::Writing::stored_first))]
fn store_pairs<H: Host>(
    draft: &Draft,
    pairs: &[Pair],
    buffer: &mut [u8],
    host: &mut H,
) -> Result<Ending, H::Error>
    requires { 4 * length pairs.now ≤ length buffer.old }
    ensures { let o = paired draft.now.faces pairs.now in
        Writes H.does H.fails (writes_of o) o.answer host.old result host.new }
{
    let line = pairs_line(usize::from(draft.faces()), pairs.len());
    host.store(put_pairs(pairs, buffer))?;
    tell(line.as_str(), Ending::Complete, host)
}

/// Prints the line that tells how many pairs these are, of so many faces.
#[tactic(auto, using(hosts::proofs::Printing::printed_at_once))]
pub fn print_pairs<H: Host>(draft: &Draft, pairs: &[Pair], host: &mut H) -> Result<(), H::Error>
    ensures { let text = pairs_line draft.now.faces (length pairs.now) in
        Prints H.does H.fails text host.old result host.new }
{
    let line = pairs_line(usize::from(draft.faces()), pairs.len());
    host.print(line.as_str().as_bytes())
}
