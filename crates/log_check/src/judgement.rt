use cayley::FoundCell;
use searcher::Children;

/// What is said of a node whose cell is due.
#[derive(Drop)]
pub enum Judgement {
    /// A number that is needed doesn't fit.
    Unfit,
    /// The differences times the matrix aren't the number times the identity.
    NotInverse,
    /// Two points are level where the cell ends.
    Tied,
    /// The cell ends, and has these children.
    Inner { children: Children },
    /// The cell never ends, and isn't one of file points alone.
    Endless,
    /// The cell never ends, and is a mixed cell of the target.
    Target(FoundCell),
}
