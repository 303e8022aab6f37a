use cayley::Cell;
use int_vectors::IntVec;

/// The powers of a cell: how much each point lies over the pair of its support, in whole numbers.
#[derive(Drop)]
pub struct PowerRow {
    pub cell: Cell,
    /// The least positive whole number that makes every power whole.
    pub scale: i128,
    /// For each support a power for each of its points, in order of position.
    pub powers: Vec<IntVec>,
}

/// Why a listing has no powers.
#[derive(Clone, Copy, Debug, PartialEq, Eq)]
pub enum RowFault {
    /// The first line with a further point whose power would be 0: only its infinitesimal is above.
    Flat { line: u64 },
    /// There was no memory.
    OutOfMemory,
}
