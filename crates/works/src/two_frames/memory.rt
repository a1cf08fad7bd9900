// Two frames in memory.
ghost use Rattle.std.specs.Prelude.{◌≡◌, ◌-◌, ◌^◌, ◌≤◌, length, min, take};
ghost use Rattle.hosts.specs.Pages.{onto_page};
ghost use Rattle.hosts.specs.inner.Filling.{Filled};
ghost use Rattle.frames.specs.Frames.{frames};
ghost use Rattle.frames.specs.Memory.{frames_in};
ghost use Rattle.works.specs.two_frames.Accounts.{account, account_text, account_refused, sheet_between, Claims};
ghost use Rattle.works.specs.two_frames.Settled.{SettlesFrames, SettlesFramesOnto};

use crate::two_frames::endings::FramesEnding;
use crate::two_frames::runs::inspect_frames;
use crate::two_frames::tables::Tables;
use frames::FrameTexts;
use hosts::{Memory, Page};
use near_faces::Pair;
use pairing::PAIR_LIMIT;

/// How a run ends, and how long is what it prints, in bytes.
#[derive(Clone, Copy, Debug, PartialEq, Eq)]
pub struct Accounted {
    pub ending: FramesEnding,
    pub printed_len: usize,
}

/// Inspects the step between two frames in memory: puts what is printed, and the pairs that are
/// refused, into the front of these bytes, as far as they have room, and answers how long what is
/// printed is.
pub fn inspect_texts(
    tables: &mut Tables,
    near: &mut [Pair; PAIR_LIMIT],
    start: &[u8],
    end: &[u8],
    page: &mut [u8],
    refused: &mut [u8],
) -> Accounted
    ensures ending { let f = frames start.now end.now in
        result.ending ≡ (account f).ending }
    ensures page { let f = frames start.now end.now in
        page.new ≡ onto_page (account_text f) page.old }
    ensures refused { let f = frames start.now end.now in
        refused.new ≡ onto_page (account_refused f) refused.old }
    ensures printed_len { let f = frames start.now end.now in
        result.printed_len ≡ min (length (account_text f)) (2 ^ 64 - 1) }
    ensures claims { let f = frames start.now end.now in
        Claims f result.ending }
    ensures settles { let f = frames start.now end.now in
        result.printed_len ≤ length page.new
        → SettlesFramesOnto (sheet_between f) (take result.printed_len page.new) refused.old refused.new }
{
    let mut page = Page::new(page);
    let mut refused = Page::new(refused);
    let mut memory = Memory {
        files: FrameTexts { start, end },
        printed: &mut page,
        stored: &mut refused,
    };
    let ending = inspect_in(tables, near, &mut memory);
    Accounted {
        ending,
        printed_len: page.len(),
    }
}

/// Inspects two frames that are still to be read.
#[tactic(auto, using(crate::proofs::of_frames::InMemory::ended, crate::proofs::of_frames::InMemory::claimed, crate::proofs::of_frames::InMemory::settled, crate::proofs::of_frames::InMemory::same_page, crate::proofs::of_frames::InMemory::same_refused))]
fn inspect_in(
    tables: &mut Tables,
    near: &mut [Pair; PAIR_LIMIT],
    memory: &mut Memory<'_, '_, '_, '_, FrameTexts<'_, '_>>,
) -> FramesEnding
    ensures ending { let f = frames_in memory.old.files in
        result ≡ (account f).ending }
    ensures page { let f = frames_in memory.old.files in
        Filled memory.old.printed.now memory.new.printed.now (account_text f) }
    ensures refused { let f = frames_in memory.old.files in
        Filled memory.old.stored.now memory.new.stored.now (account_refused f) }
    ensures claims { let f = frames_in memory.old.files in
        Claims f result }
    ensures settles { let f = frames_in memory.old.files in
        SettlesFrames (sheet_between f) (account_text f) (account_refused f) }
    ensures same_page { memory.new.printed.ghost_name ≡ memory.old.printed.ghost_name }
    ensures same_refused { memory.new.stored.ghost_name ≡ memory.old.stored.ghost_name }
{
    match inspect_frames(tables, near, memory) {
        Ok(ending) => ending,
        Err(never) => match never {},
    }
}
