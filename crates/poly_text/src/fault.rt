// What is wrong with the text of a system.
ghost use Rattle.std.specs.Prelude.{◌≡◌};
ghost use Rattle.poly_text.specs.Faults.{kind_number, fault};

use support_text::{FormatFault, TextFault};

/// What is wrong with a line of a system.
#[derive(Clone, Copy, Debug, PartialEq, Eq)]
pub enum Kind {
    /// The first line isn't `system` with one number from 1 to 16.
    System,
    /// The line isn't a polynomial by the grammar.
    Grammar,
    /// A number, a variable or an exponent is out of its limits.
    Range,
    /// A part has too many terms, too large numbers or too many open parentheses.
    Bound,
    /// The value has no term.
    Empty,
    /// The input ends where a line is expected.
    Missing,
    /// The line stands behind the last polynomial.
    Extra,
}

impl Kind {
    /// The number of the kind, from 21 to 27.
    pub fn number(self) -> u8
        ensures { result ≡ kind_number self }
    {
        match self {
            Kind::System => 21,
            Kind::Grammar => 22,
            Kind::Range => 23,
            Kind::Bound => 24,
            Kind::Empty => 25,
            Kind::Missing => 26,
            Kind::Extra => 27,
        }
    }
}

// The fault of a kind in the line of a number.
pub(crate) fn fault_at(line: u64, kind: Kind) -> TextFault
    ensures { result ≡ TextFault.Format (fault line kind) }
{
    TextFault::Format(FormatFault {
        line,
        kind: kind.number(),
    })
}
