// What is wrong with a text.
ghost use Rattle.std.specs.Prelude.{◌≡◌};
ghost use Rattle.support_text.specs.Faults.{kind_number, fault};

use thiserror::Error;

/// What is wrong with a line of a problem file or of a listing.
#[derive(Clone, Copy, Debug, PartialEq, Eq)]
pub enum Kind {
    /// The first line isn't `mixedcells 1` or `mixedcells 2`.
    Header,
    /// The line isn't `dim` with one number from 1 to 16.
    Dim,
    /// The line isn't `support` with one number from 1 to 1,000; in a listing, isn't `cells` with one number or doesn't
    /// begin with `cell`.
    Count,
    /// A number or the `:` is missing, spelled wrongly, or more tokens follow.
    Number,
    /// A number is out of its limits, or a pair of a cell line doesn't rise.
    Range,
    /// The coordinates equal those of an earlier point of the support.
    Repeated,
    /// The line behind the last support begins neither with `start` nor with `end`, a further start line is expected
    /// and isn't there, or a start line is faulty.
    Start,
    /// The input ends where a line is expected.
    Missing,
    /// More follows where nothing may, or `end` is expected and isn't there.
    Extra,
}

impl Kind {
    /// The number of the kind, from 1 to 9.
    pub fn number(self) -> u8
        ensures { result ≡ kind_number self }
    {
        match self {
            Kind::Header => 1,
            Kind::Dim => 2,
            Kind::Count => 3,
            Kind::Number => 4,
            Kind::Range => 5,
            Kind::Repeated => 6,
            Kind::Start => 7,
            Kind::Missing => 8,
            Kind::Extra => 9,
        }
    }
}

/// The first faulty line of a text, counted from 1, and the number of its fault's kind.
#[derive(Clone, Copy, Debug, PartialEq, Eq)]
pub struct FormatFault {
    pub line: u64,
    pub kind: u8,
}

/// Why a text gave nothing.
#[derive(Clone, Copy, Debug, PartialEq, Eq, Error)]
pub enum TextFault {
    #[error("line {}: fault of kind {}", .0.line, .0.kind)]
    Format(FormatFault),
    #[error("out of memory")]
    OutOfMemory,
}

/// The fault of a kind in the line of a number.
pub fn fault_at(line: u64, kind: Kind) -> TextFault
    ensures { result ≡ TextFault.Format (fault line kind) }
{
    TextFault::Format(FormatFault {
        line,
        kind: kind.number(),
    })
}
