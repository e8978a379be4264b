// A reading as it is printed.
ghost use Rattle.std.specs.Prelude.{◌≡◌, Some};
ghost use Rattle.frame_cases.specs.Reading.{kind_text, value_text, line_text};

use ipc::{Numbers, ValueNumbers};
use std::fmt;

// A letter for a value's kind, and its numbers.
#[derive(Clone, Copy)]
struct Value(ValueNumbers);

impl fmt::Display for Value {
    ghost output = { λ v. Some (value_text v.0) };

    fn fmt<W: fmt::Write>(&self, f: &mut fmt::Formatter<W>) -> fmt::Result {
        let v = self.0;
        match v.kind {
            ValueNumbers::INTEGER => write!(f, "i{}", v.integer),
            ValueNumbers::TEXT => write!(f, "t{},{}", v.start, v.length),
            ValueNumbers::PART => write!(f, "p{},{}", v.start, v.length),
            ValueNumbers::VERSIONS => write!(f, "h{},{}", v.min, v.max),
            _ => write!(f, "-"),
        }
    }
}

// A line: `code offset consumed kind key tag value`.
// Stays: the numbers of the C interface, so that the cases run numbers_of too.
#[derive(Clone, Copy)]
pub struct Line(pub Numbers);

impl Line {
    // A letter for what was read, and a space, both by one write. A line names the message of a value off its format too.
    fn kind(&self) -> &'static str
        ensures { result.now ≡ kind_text self.now.0 }
    {
        match (self.0.kind, self.0.code) {
            (Numbers::HANDSHAKE, _) => "h ",
            (Numbers::MESSAGE, _) | (_, Numbers::OFF_FORMAT) => "m ",
            _ => "- ",
        }
    }
}

impl fmt::Display for Line {
    ghost output = { λ line. Some (line_text line.0) };

    fn fmt<W: fmt::Write>(&self, f: &mut fmt::Formatter<W>) -> fmt::Result {
        let n = self.0;
        let kind = self.kind();
        let value = Value(n.value);
        write!(
            f,
            "{} {} {} {kind}{} {} {value}",
            n.code, n.offset, n.consumed, n.key, n.tag
        )
    }
}
