use thiserror::Error;

/// Why a slice can't be made a vector.
#[derive(Clone, Copy, Debug, PartialEq, Eq, Error)]
pub enum IntVecFault {
    /// An entry is -2^127.
    #[error("an entry doesn't fit")]
    Unfit,
    /// There was no memory for the vector.
    #[error("out of memory")]
    OutOfMemory,
}

/// Why two vectors have no difference.
#[derive(Clone, Copy, Debug, PartialEq, Eq, Error)]
pub enum SubFault {
    /// A difference of two entries doesn't fit.
    #[error("a number doesn't fit")]
    Overflow,
    /// There was no memory for the difference.
    #[error("out of memory")]
    OutOfMemory,
}
