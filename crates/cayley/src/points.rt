use int_vectors::IntVec;

/// A point of a lift file: its coordinates, and its height at every time.
#[derive(Debug, Drop)]
pub struct FilePoint {
    /// As many numbers as the file's dimension.
    pub coords: IntVec,
    pub height: i64,
}

/// A point of a problem. Its height at time t is `base + speed * t`; the speed is 1 for a corner.
#[derive(Debug, Drop)]
pub struct Point {
    /// As many numbers as the problem's dimension.
    pub coords: IntVec,
    pub base: i64,
    pub speed: i64,
}

/// The points of one support. The first `file` of them are file points, the others corners.
#[derive(Debug, Drop)]
pub struct Support {
    pub points: Vec<Point>,
    pub file: u32,
}
