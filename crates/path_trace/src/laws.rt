//! The laws of preorders and of inverses: each is the clause of a function that does nothing.

ghost use Rattle.path_trace.specs.Preorders.{PreorderLaw};
ghost use Rattle.path_trace.specs.Inverses.{IndependentLaw};

/// The preorder of a cell has exactly the cells whose chain of parents leads to it.
pub fn preorder_law()
    ensures { PreorderLaw }
{}

/// A matrix and a number of at least 1 show that a cell is independent, where the differences of its
/// pairs times the matrix are the number times the identity.
pub fn independent_law()
    ensures { IndependentLaw }
{}
