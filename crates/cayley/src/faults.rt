use thiserror::Error;
use wide_int::OutOfMemory;

/// Why points make no lift file or no problem. Supports and positions count from 1.
#[derive(Clone, Copy, Debug, PartialEq, Eq, Error)]
pub enum ShapeFault {
    /// The dimension, a count of supports, points or start heights, a number of coordinates or a
    /// speed isn't what it has to be.
    #[error("the lists don't have the shape of a problem")]
    BadShape,
    /// A file point has the coordinates of an earlier file point of its support.
    #[error("support {support}: point {position} is repeated")]
    Repeated { support: u32, position: u32 },
    /// A number of a point is out of its limits.
    #[error("support {support}: point {position} has a number out of its limits")]
    Range { support: u32, position: u32 },
    /// A start height of a support is out of its limits.
    #[error("support {support}: a start height is out of its limits")]
    StartRange { support: u32 },
    /// There was no memory.
    #[error("out of memory")]
    OutOfMemory,
}

impl From<OutOfMemory> for ShapeFault {
    ghost use Rattle.cayley.specs.declared.faults.ShapeFault.TheVariants.{OutOfMemory as no_memory};
    ghost use Rattle.std.specs.Prelude.{◌≡◌};

    ghost from_gives = { λ _ e. e ≡ no_memory };

    fn from(_fault: OutOfMemory) -> ShapeFault {
        ShapeFault::OutOfMemory
    }
}
