/// What is said of a listing.
#[derive(Clone, Copy, Debug, PartialEq, Eq)]
pub enum Verdict {
    /// Every line passes.
    Yes,
    /// The first line that doesn't pass, counted from 1 in the whole input, and the number of its reason: 1 its cell isn't greater than
    /// that of the line before, 2 the differences of its pairs are dependent, 3 some pair's points
    /// aren't equal under its normal, 4 some further point isn't above, 5 its normal isn't in lowest
    /// terms.
    No { line: u64, reason: u8 },
}

/// Why nothing is said of a listing.
#[derive(Clone, Copy, Debug, PartialEq, Eq)]
pub enum CheckFault {
    /// The first line that doesn't pass, counted from 1 in the whole input, has a number that doesn't fit.
    Overflow { line: u64 },
    /// There was no memory.
    OutOfMemory,
}
