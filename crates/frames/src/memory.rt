// Two frames in memory.
ghost use Rattle.std.specs.Prelude.{◌≡◌, ◌+◌, ◌-◌, ◌^◌, [], length, min, IfSome, unwrap_or};
ghost use Rattle.hosts.specs.Pages.{onto_page};
ghost use Rattle.hosts.specs.inner.Filling.{Filled};
ghost use Rattle.step.specs.Steps.{Step};
ghost use Rattle.frames.specs.Frames.{frames, points_of, step_between};
ghost use Rattle.frames.specs.Outcomes.{outcome};
ghost use Rattle.frames.specs.Memory.{frames_in};

use crate::frame_files::{FrameFile, Recording};
use crate::recording::record_step;
use crate::tables::Tables;
use hosts::{Files, Memory, Page, read_front};

/// What comes of two frames, and how long its line and its record are.
#[derive(Clone, Copy, Debug, PartialEq, Eq)]
pub struct Recorded {
    pub answer: Recording,
    pub line_len: usize,
    pub record_len: usize,
}

/// What is left to read of two texts.
#[derive(Drop)]
pub struct FrameTexts<'a, 'b> {
    pub start: &'a [u8],
    pub end: &'b [u8],
}

impl Files for FrameTexts<'_, '_> {
    ghost use Rattle.frames.specs.Frames.{text_of, same_frame};
    ghost use Rattle.frames.specs.Memory.{frames_in};

    type File = FrameFile;

    ghost same = { same_frame };

    ghost left = { λ t. text_of (frames_in t) };

    ghost most = { λ t. length t.start.now + length t.end.now };

    fn read_on(&mut self, file: FrameFile, buf: &mut [u8]) -> usize {
        match file {
            FrameFile::Start => read_front(&mut self.start, buf),
            FrameFile::End => read_front(&mut self.end, buf),
        }
    }
}

/// Records the step between two frames in memory: puts the record and the line into the front of
/// these bytes, as far as they have room, and answers how long they are.
pub fn record_frames(
    tables: &mut Tables,
    start: &[u8],
    end: &[u8],
    bytes: &mut [u8],
    line: &mut [u8],
) -> Recorded
    ensures answer { let f = frames start.now end.now in
        result.answer ≡ (outcome f).answer }
    ensures line { let f = frames start.now end.now in
        line.new ≡ onto_page (outcome f).line line.old }
    ensures line_len { let f = frames start.now end.now in
        result.line_len ≡ min (length (outcome f).line) (2 ^ 64 - 1) }
    ensures record_bytes { let f = frames start.now end.now in
        bytes.new ≡ onto_page (unwrap_or (outcome f).stored []) bytes.old }
    ensures record_len { let f = frames start.now end.now in
        result.record_len ≡ min (length (unwrap_or (outcome f).stored [])) (2 ^ 64 - 1) }
    ensures means { let f = frames start.now end.now in
        IfSome (outcome f).stored (λ bs. Step (points_of f.start) bs (step_between f)) }
{
    let mut kept = Page::new(bytes);
    let mut line = Page::new(line);
    let mut memory = Memory {
        files: FrameTexts { start, end },
        printed: &mut line,
        stored: &mut kept,
    };
    let answer = record_in(tables, &mut memory);
    Recorded {
        answer,
        line_len: line.len(),
        record_len: kept.len(),
    }
}

/// Records the step between two frames that are still to be read.
#[tactic(auto, using(crate::proofs::InMemory::answered, crate::proofs::InMemory::same_line, crate::proofs::InMemory::same_kept))]
fn record_in(
    tables: &mut Tables,
    memory: &mut Memory<'_, '_, '_, '_, FrameTexts<'_, '_>>,
) -> Recording
    ensures answer { let f = frames_in memory.old.files in
        result ≡ (outcome f).answer }
    ensures line { let f = frames_in memory.old.files in
        Filled memory.old.printed.now memory.new.printed.now (outcome f).line }
    ensures kept { let f = frames_in memory.old.files in
        Filled memory.old.stored.now memory.new.stored.now (unwrap_or (outcome f).stored []) }
    ensures means { let f = frames_in memory.old.files in
        IfSome (outcome f).stored (λ bs. Step (points_of f.start) bs (step_between f)) }
    ensures same_line { memory.new.printed.ghost_name ≡ memory.old.printed.ghost_name }
    ensures same_kept { memory.new.stored.ghost_name ≡ memory.old.stored.ghost_name }
{
    match record_step(tables, memory) {
        Ok(answer) => answer,
        Err(never) => match never {},
    }
}
