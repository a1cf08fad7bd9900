// How far a long run is, told on standard error where that is a terminal.
use std::io::IsTerminal;
use std::time::Instant;

/// What is counted of a run: the things in a file that it reads, each of so many bytes.
#[derive(Clone, Copy, Debug)]
pub struct Watched<F> {
    pub file: F,
    pub things: &'static str,
    pub size: u64,
}

/// The line that tells how far a run is.
#[derive(Drop)]
pub(crate) struct Progress {
    rt: HostRuntime,
    /// When it was told last, or the run began; none where there is no terminal.
    last: Option<Instant>,
    is_told: bool,
}

impl Progress {
    pub(crate) fn new(rt: HostRuntime) -> Progress {
        let last = if rt.stderr().is_terminal() {
            Instant::now(&rt).ok()
        } else {
            None
        };
        Progress {
            rt,
            last,
            is_told: false,
        }
    }

    /// Tells how many things are done, once a second. What cannot be told is left.
    pub(crate) fn tell(&mut self, done: u64, things: &str) {
        let Some(last) = self.last else {
            return;
        };
        let Ok(now) = Instant::now(&self.rt) else {
            return;
        };
        if now.duration_since(last).as_secs() > 0 {
            self.last = Some(now);
            self.is_told = true;
            let _ = eprint!(self.rt; "\r{done} {things} done");
        }
    }

    /// Wipes the line.
    pub(crate) fn wipe(&mut self) {
        if self.is_told {
            self.is_told = false;
            let _ = eprint!(self.rt; "\r\x1b[K");
        }
    }
}
