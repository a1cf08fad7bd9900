// The lines of the two kinds of entries, and of their counts.
ghost use Rattle.std.specs.Prelude.{◌≡◌, ◌+◌, ◌≤◌, ◌++◌, ℕ, List, Option, codes, decimal};
ghost use Rattle.arrayvec.specs.ArrayString.{array_string_len};
ghost use Rattle.motion.specs.declared.shapes.Kind.{Kind};
ghost use Rattle.report.specs.Lines.{kind_word, spaced, window_parts, vf_line, ee_line, count_line};

use arrayvec::ArrayString;
use inspection::{EeName, Tally, TestName, VfName};
use itoa::Buffer;
use motion::Kind;

/// A line has fewer bytes.
pub(crate) type ReportLine = ArrayString<96>;

/// An entry that has a line in the report.
pub(crate) trait HasLine: TestName {
    // which list it stands on
    ghost kind: { Kind };

    // its line, with its window, without the line feed
    ghost line: { Self → Option (ℕ × ℕ) → List ℕ };

    fn kind() -> Kind
        ensures { result ≡ kind };

    fn line(self, window: Option<(u8, u8)>) -> ReportLine
        ensures { result.bytes ≡ line self window ++ codes "\n" };
}

impl HasLine for VfName {
    ghost use Rattle.motion.specs.declared.shapes.Kind.TheVariants.{Vf};

    ghost kind = { Vf };

    ghost line = { vf_line };

    fn kind() -> Kind {
        Kind::Vf
    }

    fn line(self, window: Option<(u8, u8)>) -> ReportLine {
        let mut line = start(Kind::Vf);
        number(&mut line, u32::from(self.point));
        number(&mut line, u32::from(self.face));
        put_window(&mut line, window);
        line.push_str("\n");
        line
    }
}

impl HasLine for EeName {
    ghost use Rattle.motion.specs.declared.shapes.Kind.TheVariants.{Ee};

    ghost kind = { Ee };

    ghost line = { ee_line };

    fn kind() -> Kind {
        Kind::Ee
    }

    fn line(self, window: Option<(u8, u8)>) -> ReportLine {
        let mut line = start(Kind::Ee);
        number(&mut line, u32::from(self.u));
        number(&mut line, u32::from(self.v));
        number(&mut line, u32::from(self.k));
        number(&mut line, u32::from(self.l));
        put_window(&mut line, window);
        line.push_str("\n");
        line
    }
}

/// The line of the counts of a kind.
pub(crate) fn count_line(list: Kind, tally: Tally) -> ReportLine
    ensures { result.bytes ≡ count_line list tally ++ codes "\n" }
{
    let mut line = start(list);
    line.push_str(" kept");
    number(&mut line, tally.kept);
    line.push_str(" struck");
    number(&mut line, tally.struck);
    line.push_str(" shared");
    number(&mut line, tally.shared);
    line.push_str(" repeated");
    number(&mut line, tally.repeated);
    line.push_str("\n");
    line
}

/// The word that the lines of a list begin with.
fn start(list: Kind) -> ReportLine
    ensures text { result.bytes ≡ kind_word list }
    ensures len { array_string_len result ≡ 2 }
{
    let mut line = ArrayString::new();
    match list {
        Kind::Vf => line.push_str("VF"),
        Kind::Ee => line.push_str("EE"),
    }
    line
}

/// A space and a number.
fn number(line: &mut ReportLine, n: u32)
    requires { array_string_len line.old + 11 ≤ 96 }
    ensures text { line.new.bytes ≡ line.old.bytes ++ (codes " " ++ decimal n) }
    ensures len { array_string_len line.new ≤ array_string_len line.old + 11 }
{
    let mut digits = Buffer::new();
    line.push_str(" ");
    line.push_str(digits.format(n));
}

/// A window, which may be absent.
fn put_window(line: &mut ReportLine, window: Option<(u8, u8)>)
    requires { array_string_len line.old + 22 ≤ 96 }
    ensures text { line.new.bytes ≡ line.old.bytes ++ spaced (window_parts window) }
    ensures len { array_string_len line.new ≤ array_string_len line.old + 22 }
{
    match window {
        Some((first, last)) => {
            number(line, u32::from(first));
            number(line, u32::from(last));
        }
        None => line.push_str(" - -"),
    }
}
