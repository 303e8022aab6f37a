use int_vectors::IntVec;

/// The normal of a cell at all times: at time t it is the vector `p + q t` over `den`, which is at
/// least 1.
#[derive(Debug, Drop)]
pub struct MovingNormal {
    /// As many numbers as the problem's dimension.
    pub p: IntVec,
    /// As many again: how each number moves while the time grows by 1.
    pub q: IntVec,
    pub den: i128,
}
