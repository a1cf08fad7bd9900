// The step between two frames.
ghost use Rattle.std.specs.Prelude.{◌≡◌, ◌-◌, ◌^◌, [], length, min, IfSome, unwrap_or};
ghost use Rattle.hosts.specs.Pages.{onto_page};
ghost use Rattle.step.specs.Steps.{Step};
ghost use Rattle.frames.specs.Frames.{frames, points_of, step_between};
ghost use Rattle.frames.specs.Outcomes.{outcome};
ghost use Rattle.page.specs.Codes.{code_of_recording};

use frames::{FrameFile, Recording, Tables, record_frames};

/// What came of two frames, 0 a record, 1 a fault of the first, 2 of the second, 3 that they differ;
/// and how many bytes long are the record and the line.
#[repr(C)]
#[derive(Clone, Copy, Debug, PartialEq, Eq)]
pub struct Recorded {
    pub code: u32,
    pub record_len: usize,
    pub line_len: usize,
}

/// Records the step between two frames, as `record` does: puts the record and the line into the
/// front of these bytes, as far as they have room.
#[unsafe(no_mangle)]
pub extern "C" fn page_record(
    start: &[u8],
    end: &[u8],
    bytes: &mut [u8],
    line: &mut [u8],
) -> Recorded
    ensures code { let f = frames start.now end.now in
        result.code ≡ code_of_recording (outcome f).answer }
    ensures record_bytes { let f = frames start.now end.now in
        bytes.new ≡ onto_page (unwrap_or (outcome f).stored []) bytes.old }
    ensures record_len { let f = frames start.now end.now in
        result.record_len ≡ min (length (unwrap_or (outcome f).stored [])) (2 ^ 64 - 1) }
    ensures line { let f = frames start.now end.now in
        line.new ≡ onto_page (outcome f).line line.old }
    ensures line_len { let f = frames start.now end.now in
        result.line_len ≡ min (length (outcome f).line) (2 ^ 64 - 1) }
    ensures means { let f = frames start.now end.now in
        IfSome (outcome f).stored (λ bs. Step (points_of f.start) bs (step_between f)) }
{
    let mut tables = Tables::new();
    let recorded = record_frames(&mut tables, start, end, bytes, line);
    Recorded {
        code: code_of_recording(recorded.answer),
        record_len: recorded.record_len,
        line_len: recorded.line_len,
    }
}

/// The number of what came.
fn code_of_recording(answer: Recording) -> u32
    ensures { result ≡ code_of_recording answer }
{
    match answer {
        Recording::Recorded => 0,
        Recording::Faulty(FrameFile::Start, _) => 1,
        Recording::Faulty(FrameFile::End, _) => 2,
        Recording::Different(_) => 3,
    }
}
