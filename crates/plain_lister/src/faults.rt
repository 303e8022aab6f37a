use cayley::Cell;

/// Why a problem's mixed cells aren't listed.
#[derive(Drop)]
pub enum PlainFault {
    /// There are more than 1,000,000 choices. `choices` is their number over the first k supports,
    /// for the least k at which it exceeds 1,000,000.
    TooMany { choices: u64 },
    /// A number of a choice's working doesn't fit. The cell is the least such choice.
    Overflow { cell: Cell },
    /// There was no memory.
    OutOfMemory,
}
