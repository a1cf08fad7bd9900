// Lent bytes to print on.
ghost use Rattle.std.specs.Prelude.{◌≡◌, ◌+◌, ◌++◌, take};
ghost use Rattle.hosts.specs.Pages.{onto_page};

use crate::hosts::Host;
use std::convert::Infallible;

/// Lent bytes as a host: a page has nothing to read and keeps nothing that is stored. What is printed
/// stands in their front, as far as there is room, and is counted to its end.
#[derive(Drop)]
pub struct Page<'a> {
    bytes: &'a mut [u8],
    len: usize,
}

impl<'a> Page<'a> {
    ghost use Rattle.std.specs.Prelude.{[]};
    ghost use Rattle.hosts.specs.Pages.{Shows, ShowsBehind, printed_len};

    /// Shows nothing yet.
    pub fn new(bytes: &'a mut [u8]) -> Page<'a>
        ensures { Shows bytes.entry [] result }
    {
        Page { bytes, len: 0 }
    }

    /// How much was printed, with what had no room.
    pub fn len(&self) -> usize
        ensures { result ≡ printed_len self.now }
    {
        self.len
    }

    /// Shows these bytes behind what is shown.
    pub(crate) fn show(&mut self, bytes: &[u8])
        ensures { ShowsBehind self.old bytes.now self.new }
    {
        put(self.bytes, self.len, bytes);
        self.len = self.len.saturating_add(bytes.len());
    }
}

impl Host for Page<'_> {
    ghost use Rattle.hosts.specs.Pages.{ShowsMore, NeverFails};

    // one, and it is empty
    type File = ();

    type Error = Infallible;

    ghost does = { ShowsMore };

    ghost fails = { NeverFails };

    ghost most = { λ p. 0 };

    fn fill(&mut self, _file: (), _buf: &mut [u8]) -> Result<usize, Infallible> {
        Ok(0)
    }

    fn print(&mut self, bytes: &[u8]) -> Result<(), Infallible> {
        self.show(bytes);
        Ok(())
    }

    fn store(&mut self, _bytes: &[u8]) -> Result<(), Infallible> {
        Ok(())
    }
}

/// Puts a text into a page behind so many bytes, as far as it has room.
#[tactic(auto, using(crate::proofs::Showing::written_behind))]
fn put(page: &mut [u8], at: usize, text: &[u8])
    ensures { page.new ≡ onto_page (take at page.old ++ text.now) page.old }
{
    let start = at.min(page.len());
    let n = text.len().min(page.len() - start);
    page[start..start + n].copy_from_slice(&text[..n]);
}
