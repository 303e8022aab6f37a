/// What speaks against a log at one of its lines.
#[derive(Clone, Copy)]
pub(crate) enum Refusal {
    // The cell of a node isn't the next that is due.
    NotDue,
    // A number that the node asks for doesn't fit.
    Unfit,
    // The differences of its pairs times its matrix aren't its number times the identity.
    NotInverse,
    // Two further points are level where its cell ends.
    Tied,
    // A cell is still due behind the last node.
    StillDue,
    // A listed cell isn't the next expected one with its normal.
    NotExpected,
    // An expected cell isn't listed.
    Missing,
}

/// Why a log isn't accepted.
#[derive(Clone, Copy)]
pub(crate) enum Halt {
    Refused { line: u64, refusal: Refusal },
    OutOfMemory,
}
