// The words of a command line.
ghost use Rattle.std.specs.Prelude.{◌≡◌, ◌<◌, ◌↔◌, length, slice_index, IsTrue};

use std::alloc::{AllocError, Global};
use std::env::Args;

/// What a program is given.
#[derive(Drop)]
pub struct Given {
    /// The words that are no options.
    pub operands: Vec<String>,
    /// The file after the option `--refused`.
    pub refused: Option<String>,
}

/// What a command line asks for.
#[derive(Drop)]
pub(crate) enum Asked {
    Work(Given),
    Help,
    Version,
    /// An option that the program does not have.
    Unknown(String),
    /// Something that the usage does not have.
    Wrong,
}

/// What these words, of which the first is the program's name, ask for. It may have the option `--refused`.
pub(crate) fn read_words(
    alloc: Global,
    words: Args,
    has_refused: bool,
) -> Result<Asked, AllocError> {
    let mut given = Given {
        operands: Vec::new(alloc),
        refused: None,
    };
    let mut options_end = false;
    let mut wants_file = false;
    for word in words.skip(1) {
        if wants_file {
            wants_file = false;
            given.refused = Some(word);
            continue;
        }
        if options_end || !is_option(word.as_str()) {
            given.operands.push(word)?;
            continue;
        }
        match word.as_str() {
            "--" => options_end = true,
            "-h" | "--help" => return Ok(Asked::Help),
            "--version" => return Ok(Asked::Version),
            "--refused" if has_refused => wants_file = true,
            _ => return Ok(Asked::Unknown(word)),
        }
    }
    if wants_file {
        return Ok(Asked::Wrong);
    }
    Ok(Asked::Work(given))
}

/// A word that begins with a dash is an option, unless it is a dash alone.
fn is_option(word: &str) -> bool
    ensures { IsTrue result ↔ ((slice_index word.now 0 ≡ 45) × (1 < length word.now)) }
{
    let bytes = word.as_bytes();
    bytes.len() > 1 && bytes[0] == b'-'
}
