// How a fault is told: one line for every fault of every layer.
ghost use Rattle.std.specs.Prelude.{◌≡◌, ◌+◌, ◌≤◌, ◌++◌, length, codes, decimal, Some};
ghost use Rattle.sheet.specs.Checks.{notice};
ghost use Rattle.arrayvec.specs.ArrayString.{array_string_len};
ghost use Rattle.sheet.specs.Notices.{name_of, fault_line};

use arrayvec::ArrayString;
use itoa::Buffer;
use std::fmt;

/// The longest line of a fault: a number of three digits, a name of seven letters and two places of
/// ten digits.
pub type FaultLine = ArrayString<39>;

/// What refused: the reader of a field, of a line, of a sheet or of a step, the writer of a step, a
/// call of an inspection (its opening, an offer, a window), the report, the search for near faces,
/// or a call about a reviewer's slip.
#[derive(Clone, Copy, Debug, PartialEq, Eq)]
pub enum Layer {
    Field,
    Line,
    Sheet,
    Step,
    Writer,
    Opening,
    Offer,
    Window,
    Report,
    Search,
    Slip,
}

/// A fault in numbers: which it is, who refused, and its two places.
#[derive(Clone, Copy, Debug, PartialEq, Eq)]
pub struct Notice {
    pub number: u8,
    pub layer: Layer,
    pub first: u32,
    pub second: u32,
}

impl Layer {
    /// The layer's name in a fault's line.
    fn name(self) -> &'static str
        ensures text { result.now ≡ name_of self }
        ensures short { length result.now ≤ 7 }
    {
        match self {
            Layer::Field => "field",
            Layer::Line => "line",
            Layer::Sheet => "sheet",
            Layer::Step => "step",
            Layer::Writer => "writer",
            Layer::Opening => "opening",
            Layer::Offer => "offer",
            Layer::Window => "window",
            Layer::Report => "report",
            Layer::Search => "search",
            Layer::Slip => "slip",
        }
    }
}

impl Notice {
    /// The fault with this number, of a layer, at two places.
    pub fn new(number: u8, layer: Layer, first: u32, second: u32) -> Notice
        ensures { result ≡ notice number layer first second }
    {
        Notice {
            number,
            layer,
            first,
            second,
        }
    }

    /// The line that tells the fault, without a line feed.
    pub fn line(self) -> FaultLine
        ensures { result.bytes ≡ fault_line self }
    {
        let mut digits = Buffer::new();
        let mut line = ArrayString::new();
        line.push_str("fault ");
        line.push_str(digits.format(self.number));
        line.push_str(" ");
        line.push_str(self.layer.name());
        put_place(&mut line, self.first);
        put_place(&mut line, self.second);
        line
    }
}

/// A space and a place.
fn put_place(line: &mut FaultLine, place: u32)
    requires { array_string_len line.old + 11 ≤ 39 }
    ensures text { line.new.bytes ≡ line.old.bytes ++ (codes " " ++ decimal place) }
    ensures len { array_string_len line.new ≤ array_string_len line.old + 11 }
{
    let mut digits = Buffer::new();
    line.push_str(" ");
    line.push_str(digits.format(place));
}

impl fmt::Display for Layer {
    ghost output = { λ l. Some (name_of l) };

    fn fmt<W: fmt::Write>(&self, f: &mut fmt::Formatter<W>) -> fmt::Result {
        let name = self.name();
        write!(f, "{name}")
    }
}

impl fmt::Display for Notice {
    ghost output = { λ n. Some (fault_line n) };

    fn fmt<W: fmt::Write>(&self, f: &mut fmt::Formatter<W>) -> fmt::Result {
        let line = self.line();
        write!(f, "{line}")
    }
}
