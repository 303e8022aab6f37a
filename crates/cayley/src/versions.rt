ghost use Rattle.std.specs.Prelude.{◌≡◌};
ghost use Rattle.cayley.specs.Problems.{version_number};
ghost use Rattle.cayley.specs.Stored.{version_of};

/// The two forms of a file's heights: as they are, or with an infinitesimal of its own for each
/// point.
#[derive(Clone, Copy, Debug, PartialEq, Eq)]
pub enum Version {
    First,
    Second,
}

impl Version {
    /// The number of the form in a file: 1 or 2.
    pub(crate) fn number(self) -> u8
        ensures { result ≡ version_number (version_of self) }
    {
        match self {
            Version::First => 1,
            Version::Second => 2,
        }
    }
}
