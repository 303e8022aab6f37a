// What a list of words asks for.

/// A family of problem files, with its numbers.
#[derive(Clone, Copy, Debug, PartialEq, Eq)]
pub enum Family {
    /// The cyclic roots system of this many variables.
    Cyclic(u64),
    /// Scattered points: the dimension, the points of each support, the greatest coordinate.
    Scatter(u64, u64, u64),
}

/// What a list of words asks for, with the numbers that the words give or leave out.
#[derive(Clone, Copy, Debug, PartialEq, Eq)]
pub enum Meaning {
    Plain,
    /// `list`, with this many searchers.
    List(u64),
    /// `sum`, with this many searchers.
    Sum(u64),
    Check,
    Powers,
    Generic,
    Move,
    Trace,
    Verify,
    /// `poly`, behind this seed.
    Poly(u64),
    /// `make`, of this family and behind this seed.
    Make(Family, u64),
}
