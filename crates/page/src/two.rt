// The whole run from two frames.
ghost use Rattle.std.specs.Prelude.{◌≡◌, ◌-◌, ◌^◌, ◌≤◌, length, min, take};
ghost use Rattle.hosts.specs.Pages.{onto_page};
ghost use Rattle.frames.specs.Frames.{frames};
ghost use Rattle.works.specs.two_frames.Accounts.{account, account_text, account_refused, sheet_between, Claims};
ghost use Rattle.works.specs.two_frames.Settled.{SettlesFramesOnto};
ghost use Rattle.page.specs.Codes.{code_of_frames, refused_in};

use crate::room::Room;
use frames::FrameFile;
use works::two_frames::{FramesEnding, Tables, inspect_texts};

/// How a run ended, 0 covered all pairs, 1 refused some, 2 a fault of the search, 3 of the first
/// frame, 4 of the second, 5 that they differ; how many pairs were refused, and how many bytes long
/// is its text.
#[repr(C)]
#[derive(Clone, Copy, Debug, PartialEq, Eq)]
pub struct Accounted {
    pub code: u32,
    pub refused: usize,
    pub text_len: usize,
}

/// Inspects the step between two frames, as `inspect` does: finds all near pairs and offers them.
/// Puts what is printed, and the pairs that are refused, into the front of these bytes, as far as
/// they have room.
///
/// Where no pair is refused, the claim is of the whole sheet; and so say the lines that are printed,
/// where they have room (`settles`).
#[unsafe(no_mangle)]
pub extern "C" fn page_frames(
    room: &mut Room,
    start: &[u8],
    end: &[u8],
    text: &mut [u8],
    refused: &mut [u8],
) -> Accounted
    ensures code { let a = account (frames start.now end.now) in
        result.code ≡ code_of_frames a.ending }
    ensures count { let a = account (frames start.now end.now) in
        result.refused ≡ refused_in a.ending }
    ensures refused { let f = frames start.now end.now in
        refused.new ≡ onto_page (account_refused f) refused.old }
    ensures text { let f = frames start.now end.now in
        text.new ≡ onto_page (account_text f) text.old }
    ensures text_len { let f = frames start.now end.now in
        result.text_len ≡ min (length (account_text f)) (2 ^ 64 - 1) }
    ensures claims { let f = frames start.now end.now in Claims f (account f).ending }
    ensures settles { let printed = take result.text_len text.new in
        result.text_len ≤ length text.new
        → SettlesFramesOnto (sheet_between (frames start.now end.now)) printed refused.old refused.new }
{
    let mut tables = Tables::new();
    let account = inspect_texts(&mut tables, &mut room.near, start, end, text, refused);
    Accounted {
        code: code_of_frames(account.ending),
        refused: refused_in(account.ending),
        text_len: account.printed_len,
    }
}

/// The number of an ending.
fn code_of_frames(ending: FramesEnding) -> u32
    ensures { result ≡ code_of_frames ending }
{
    match ending {
        FramesEnding::Covered => 0,
        FramesEnding::Refused(_) => 1,
        FramesEnding::Unsearched(_) => 2,
        FramesEnding::Faulty(FrameFile::Start, _) => 3,
        FramesEnding::Faulty(FrameFile::End, _) => 4,
        FramesEnding::Different(_) => 5,
    }
}

/// How many pairs were refused.
fn refused_in(ending: FramesEnding) -> usize
    ensures { result ≡ refused_in ending }
{
    match ending {
        FramesEnding::Refused(count) => count,
        _ => 0,
    }
}
