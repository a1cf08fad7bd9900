// The lines of a text, one after another: a line is a part of the text, with its number.
ghost use Rattle.std.specs.Prelude.{◌≡◌, ◌+◌, ◌^◌, ◌<◌, ◌≤◌, length};

use crate::cuts::cut;

/// A line: a part of the text, without its line feed, and its number.
#[derive(Clone, Copy)]
pub(crate) struct Line<'a> {
    pub(crate) bytes: &'a [u8],
    pub(crate) number: u32,
}

/// The lines that are left of a text.
#[derive(Clone, Copy)]
pub(crate) struct Lines<'a> {
    pub(crate) rest: &'a [u8],
    pub(crate) number: u32,
    pub(crate) ghost countable: { number + length rest.now < 2 ^ 32 },
}

impl<'a> Iterator for Lines<'a> {
    ghost use Rattle.std.specs.Iterator.{YieldsFirstBy, item_count};
    ghost use Rattle.sheet.specs.Numbered.{lines_left, line_read};

    type Item = Line<'a>;

    ghost next_gives = { YieldsFirstBy line_read lines_left };

    ghost remaining = { item_count lines_left };

    fn next(&mut self) -> Option<Line<'a>> {
        if self.rest.is_empty() {
            return None;
        }
        let (bytes, rest) = cut(self.rest, b'\n');
        let number = self.number;
        self.rest = rest;
        self.number += 1;
        Some(Line { bytes, number })
    }
}

/// The lines of `text`, which count from 1.
pub(crate) fn lines_in(text: &[u8]) -> Lines<'_>
    requires { length text.now ≤ 65536 }
    ensures rest { result.rest.now ≡ text.now }
    ensures first { result.number ≡ 1 }
{
    Lines {
        rest: text,
        number: 1,
    }
}
