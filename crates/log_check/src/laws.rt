//! What a node's matrix tells of its cell: each is the clause of a function that does nothing.

ghost use Rattle.log_check.specs.Laws.{CircuitLaw, NormalLaw};
ghost use Rattle.log_check.specs.Walks.{PreorderWalkLaw, WalkLaw};

/// Where the differences of a cell's pairs times a matrix are a number of at least 1 times the
/// identity, the rows of the matrix times how far bases and speeds fall along the pairs, over the
/// number, are the one normal of the cell at every time.
pub fn normal_law()
    ensures { NormalLaw }
{}

/// The numbers of each further point by the columns of the matrix are a dependency of the cell and
/// this point that is positive there.
pub fn circuit_law()
    ensures { CircuitLaw }
{}

/// Nodes that pass one after the other, each of the cell that is due next and with its children due
/// before all others, are the preorders of the cells that were due at first, where none is due at the
/// end. So from the start cell they are the path tree in preorder.
pub fn walk_law()
    ensures { WalkLaw }
{}

/// The preorders of some cells are such a walk, where each node has the inverse of its cell, all its
/// numbers fit, and no cell is tied where it ends.
pub fn preorder_walk_law()
    ensures { PreorderWalkLaw }
{}
