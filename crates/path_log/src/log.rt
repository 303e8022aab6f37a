use cayley::LiftFile;
use listing_text::CellPart;
use path_trace::TraceNode;

/// A node line of a log, in the form that the line gives it. It isn't said that the numbers are the
/// inverse of the cell's differences.
#[derive(Drop)]
pub struct LogNode {
    /// The number of the line in the log, from 1.
    pub line: u64,
    /// A pair of positions for each support, and n times n numbers over a scale of at least 1, where n
    /// is the file's dimension. The positions are of file points and, behind them, of n + 1 corners.
    pub node: TraceNode,
}

/// A log: a file, the node lines that stand behind it, and the cell lines behind those.
#[derive(Drop)]
pub struct PathLog {
    pub file: LiftFile,
    /// At least one node.
    pub nodes: Vec<LogNode>,
    pub part: CellPart,
}
